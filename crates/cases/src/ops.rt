// The operations by the first eight bytes of their names, in ASCII, as one number: so a name with zero bytes
// in front is that name.

// The operation whose name a line starts with.
pub(crate) fn op_of(line: &[u8]) -> u64 {
    line.iter()
        .take(8)
        .take_while(|byte| **byte != b' ')
        .fold(0, |op, byte| {
            op % 0x100_0000_0000_0000 * 256 + u64::from(*byte)
        })
}

// Ranges and numbers.
pub(crate) const LEN: u64 = 0x6c_65_6e;

pub(crate) const IS_VALID: u64 = 0x69_73_5f_76_61_6c_69_64;

pub(crate) const CONTAINS: u64 = 0x63_6f_6e_74_61_69_6e_73;

pub(crate) const OVERLAPS: u64 = 0x6f_76_65_72_6c_61_70_73;

pub(crate) const ALIGNED_SUBRANGE: u64 = 0x61_6c_69_67_6e_65_64_5f;

pub(crate) const SPLIT_AT_OFFSET: u64 = 0x73_70_6c_69_74_5f_61_74;

pub(crate) const IS_POWER_OF_TWO: u64 = 0x69_73_5f_70_6f_77_65_72;

pub(crate) const PADDING: u64 = 0x70_61_64_64_69_6e_67;

pub(crate) const ROUND_UP: u64 = 0x72_6f_75_6e_64_5f_75_70;

// Lists of ranges and of nodes.
pub(crate) const RANGES_VALID: u64 = 0x72_61_6e_67_65_73_5f_76;

pub(crate) const RANGES_ASCEND: u64 = 0x72_61_6e_67_65_73_5f_61;

pub(crate) const SORT_BY_START: u64 = 0x73_6f_72_74_5f_62_79_5f;

pub(crate) const INSERT_NODE: u64 = 0x69_6e_73_65_72_74_5f_6e;

pub(crate) const MERGE_ADJACENT_RANGES: u64 = 0x6d_65_72_67_65_5f_61_64;

pub(crate) const WALK_RANGES: u64 = 0x77_61_6c_6b_5f_72_61_6e;

pub(crate) const SUBTRACT_RANGES: u64 = 0x73_75_62_74_72_61_63_74;

// Texts.
pub(crate) const CHECK_TEXT: u64 = 0x63_68_65_63_6b_5f_74_65;

pub(crate) const NEXT_RECORD: u64 = 0x6e_65_78_74_5f_72_65_63;

pub(crate) const FIRST_PART: u64 = 0x66_69_72_73_74_5f_70_61;

pub(crate) const READ_NUMBER: u64 = 0x72_65_61_64_5f_6e_75_6d;

// What is written.
pub(crate) const WRITE_RAM: u64 = 0x77_72_69_74_65_5f_72_61;

pub(crate) const WRITE_POOL: u64 = 0x77_72_69_74_65_5f_70_6f;

pub(crate) const WRITE_GOT: u64 = 0x77_72_69_74_65_5f_67_6f;

pub(crate) const WRITE_MAP: u64 = 0x77_72_69_74_65_5f_6d_61;

pub(crate) const WRITE_NO: u64 = 0x77_72_69_74_65_5f_6e_6f;

pub(crate) const PUT_NUMBER: u64 = 0x70_75_74_5f_6e_75_6d_62;

pub(crate) const PUT_WORD: u64 = 0x70_75_74_5f_77_6f_72_64;

pub(crate) const PLAN: u64 = 0x70_6c_61_6e;

// Sizes, selections and calls on a table.
pub(crate) const RELEASE: u64 = 0x72_65_6c_65_61_73_65;

pub(crate) const DEBUG: u64 = 0x64_65_62_75_67;

pub(crate) const POOL: u64 = 0x70_6f_6f_6c;

pub(crate) const SELECT: u64 = 0x73_65_6c_65_63_74;

pub(crate) const BUILD: u64 = 0x62_75_69_6c_64;

pub(crate) const GET: u64 = 0x67_65_74;

pub(crate) const LIST: u64 = 0x6c_69_73_74;

pub(crate) const PLACE: u64 = 0x70_6c_61_63_65;
