// The planner's refusals (docs/SPEC.md, section 1). The rows of the chart there are looked at in its
// order. Every other crate refuses with a `Refusal` in a `Result`, and contracts name one as
// specs/Number.antt does; the numbers are what a plan's text and the calls from C tell.
#![tactic(auto)]

ghost use Rattle.std.specs.Prelude.{◌≡◌};
ghost use Rattle.refusal.specs.Number.{all, number_of};

// Why there is no plan, no table or no range, with the number that the documents give it.
#[derive(Clone, Copy, PartialEq, Eq)]
pub enum Refusal {
    // The text.

    // A line of the text breaks its form.
    LineMalformed = 1,
    // A record is missing, repeated or out of order.
    RecordOrder = 2,
    // The text has more than 65,536 bytes; looked at before 1 and 2.
    TextTooLong = 3,

    // Ranges.

    // A range's start is not below its end, or one of them is no page multiple.
    RangeInvalid = 4,
    // The map, the imported ranges or the RAM list do not ascend or are not disjoint; touching is
    // allowed.
    RangesNotAscending = 5,

    // Selection.

    // The map has more than 1,024 entries, there are more than 256 imported ranges, or boot mode has
    // no map.
    MapCount = 6,
    // Boot mode: the map has more than 64 nodes, or a node's number is not below their count.
    NodeNumbers = 7,
    // Boot mode: a RAM size is given and is below the file's length.
    RamSizeBelowFile = 8,
    // A node's share, or the end of an isolated guest's range, is above 2^64 - 4,096.
    ShareTooLarge = 9,
    // Boot mode: a piece of the file lies in no map entry.
    FileNotInMap = 10,
    // Boot mode: an imported range overlaps the file and does not lie inside it.
    ImportCrossesFile = 11,
    // Boot mode: a piece of an imported range lies in no map entry, and is not the one page from
    // fffff000 of a Tdx guest.
    ImportNotInMap = 12,
    // Boot mode: a node's free bytes are fewer than it needs.
    NodeTooSmall = 13,
    // A 65th piece would be chosen, or a 1,025th free piece found.
    TooManyPieces = 14,

    // The builder.

    // The RAM list has more than 64 entries.
    RamCount = 15,
    // The table to build into is not empty.
    TableNotEmpty = 16,
    // There are more than 20 reserved ranges.
    ReservedCount = 17,
    // Two reserved ranges overlap.
    ReservedOverlap = 18,
    // A byte of a reserved range lies outside the used range.
    ReservedOutsideUsed = 19,
    // There are more than 64 pool ranges, one overlaps another or the used range, or they and the used
    // pieces are more than 84.
    PoolRanges = 20,
    // A byte of the used range or of a pool range lies outside the RAM.
    UsedOutsideRam = 21,

    // A request.

    // The length is 0.
    LengthZero = 22,
    // The length is above 2^64 - 4,096.
    LengthTooLarge = 23,
    // The alignment is no power of two.
    AlignmentInvalid = 24,
    // No entry fits.
    NoFit = 25,
    // Splitting the chosen entry would give more than 256 entries.
    TableFull = 26,

    // The private pool.

    // 2^52 pages or more are asked for.
    PoolTooLarge = 27,
    // The pool is split, and the table has no node or more nodes than there are pages.
    PoolSplit = 28,
    // The pool is split, and a node has no entry that fits its piece.
    PoolNodeNoFit = 29,
}

impl Refusal {
    pub fn number(self) -> u8
        ensures { result ≡ number_of self }
    {
        self as u8
    }
}

// The numbers of all of them, in order.
pub fn numbers() -> [u8; 29]
    ensures { result ≡ all }
{
    [
        Refusal::LineMalformed.number(),
        Refusal::RecordOrder.number(),
        Refusal::TextTooLong.number(),
        Refusal::RangeInvalid.number(),
        Refusal::RangesNotAscending.number(),
        Refusal::MapCount.number(),
        Refusal::NodeNumbers.number(),
        Refusal::RamSizeBelowFile.number(),
        Refusal::ShareTooLarge.number(),
        Refusal::FileNotInMap.number(),
        Refusal::ImportCrossesFile.number(),
        Refusal::ImportNotInMap.number(),
        Refusal::NodeTooSmall.number(),
        Refusal::TooManyPieces.number(),
        Refusal::RamCount.number(),
        Refusal::TableNotEmpty.number(),
        Refusal::ReservedCount.number(),
        Refusal::ReservedOverlap.number(),
        Refusal::ReservedOutsideUsed.number(),
        Refusal::PoolRanges.number(),
        Refusal::UsedOutsideRam.number(),
        Refusal::LengthZero.number(),
        Refusal::LengthTooLarge.number(),
        Refusal::AlignmentInvalid.number(),
        Refusal::NoFit.number(),
        Refusal::TableFull.number(),
        Refusal::PoolTooLarge.number(),
        Refusal::PoolSplit.number(),
        Refusal::PoolNodeNoFit.number(),
    ]
}
