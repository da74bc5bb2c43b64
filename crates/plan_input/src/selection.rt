// What selection is given.
ghost use Rattle.std.specs.Prelude.{◌≡◌};
ghost use Rattle.std.proofs.lemmas.List.Edits.{sets};
ghost use Rattle.plan_input.specs.Record.{records_at};
ghost use Rattle.plan_input.specs.Selection.{selection_in, SelectionHeld};

use crate::entry::MEM;
use crate::range::{FILE, IMPORT, or_empty};
use crate::word::Cursor;
use host_map::MAP_ROOM;
use host_params::MemoryEntry;
use memory_range::MemoryRange;
use plan_record::Shape;

// One above the bound of row 6, so that a list that is too long is refused by that row.
pub const IMPORT_ROOM: usize = 257;

#[derive(Clone, Copy)]
pub struct SelectionRead {
    pub shape: Shape,
    pub file: MemoryRange,
    pub map_count: usize,
    pub import_count: usize,
    // Row 4 of all these ranges, and row 5 of both lists.
    pub valid: bool,
    pub ascending: bool,
    // The place behind the last record read, and the order that it leaves.
    pub next: usize,
    pub order: u8,
}

// The map and the imported ranges are written to lists, as far as there is room.
pub fn read_selection(
    text: &[u8],
    map: &mut [MemoryEntry; MAP_ROOM],
    imports: &mut [MemoryRange; IMPORT_ROOM],
) -> SelectionRead
    ensures { let given = selection_in (records_at text.now 0) in SelectionHeld text.now given result
        × (map.new ≡ sets map.old 0 given.map)
        × (imports.new ≡ sets imports.old 0 given.imports) }
{
    let mut cursor = Cursor { at: 0, order: 0 };
    let shape = cursor.read_shape(text);
    let file = or_empty(cursor.read_range(text, FILE));
    let mapped = cursor.read_list(text, MEM, map);
    let imported = cursor.read_list(text, IMPORT, imports);
    SelectionRead {
        shape,
        file,
        map_count: mapped.count,
        import_count: imported.count,
        valid: file.is_valid() & mapped.check.valid & imported.check.valid,
        ascending: mapped.check.ascending & imported.check.ascending,
        next: cursor.at,
        order: cursor.order,
    }
}
