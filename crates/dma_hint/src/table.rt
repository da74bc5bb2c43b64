// The two lookup tables of the private pool's size. Both ascend by processor count.
ghost use Rattle.std.specs.Prelude.{◌≡◌};
ghost use Rattle.dma_hint.specs.Table.{rows_of};

use host_params::Vtl2GpaPoolLookupTable;

// A guest's processors, the MiB of its VTL2's memory, and the hint in MiB. A row is a list of numbers in the
// definitions, so an array here.
pub(crate) type Row = [u16; 3];

// The columns of a row.
pub(crate) const VP_COUNT: usize = 0;

pub(crate) const VTL2_MEMORY_MB: usize = 1;

pub(crate) const DMA_HINT_MB: usize = 2;

// Guests in use.
static LOOKUP_TABLE_RELEASE: [Row; 39] = [
    [2, 96, 2],
    [2, 98, 4],
    [2, 100, 4],
    [2, 104, 4],
    [4, 108, 2],
    [4, 110, 6],
    [4, 112, 6],
    [4, 118, 8],
    [4, 130, 12],
    [8, 140, 4],
    [8, 148, 10],
    [8, 170, 20],
    [8, 176, 20],
    [16, 70, 2],
    [16, 234, 12],
    [16, 256, 20],
    [16, 268, 38],
    [16, 282, 54],
    [24, 420, 66],
    [32, 404, 22],
    [32, 516, 36],
    [32, 538, 74],
    [48, 558, 32],
    [48, 718, 52],
    [48, 730, 52],
    [48, 746, 78],
    [64, 712, 42],
    [64, 924, 68],
    [64, 938, 68],
    [96, 1030, 64],
    [96, 1042, 114],
    [96, 1058, 114],
    [96, 1340, 102],
    [96, 1358, 104],
    [96, 1382, 120],
    [112, 1566, 288],
    [128, 1342, 84],
    [128, 1360, 84],
    [896, 12912, 516],
];

// Guests of developers and tests, which have more memory.
static LOOKUP_TABLE_DEBUG: [Row; 6] = [
    [4, 496, 4],
    [16, 512, 16],
    [32, 1024, 32],
    [32, 1536, 128],
    [64, 1024, 64],
    [128, 1024, 128],
];

// The tables are lent where they stand.
pub(crate) fn table_rows(table: Vtl2GpaPoolLookupTable) -> &'static [Row]
    ensures { result.now ≡ rows_of table }
{
    match table {
        Vtl2GpaPoolLookupTable::Release => &LOOKUP_TABLE_RELEASE,
        Vtl2GpaPoolLookupTable::Debug => &LOOKUP_TABLE_DEBUG,
    }
}
