// Occurrences of module 48: the copies of the control lines, and the cells.
ghost use Rattle.std.specs.Prelude.{◌+◌, ◌*◌, ◌≤◌, ◌≡◌};
ghost use Rattle.meaning.specs.Layout.{each, occurrence_numbers, number_bytes};
ghost use Rattle.meaning.specs.Alu.{lines_of, copy_row, copies as copiesOf, cells as cells_of};
ghost use Rattle.bytes_out.specs.Filled.{Put};
ghost use Rattle.write_pieces.specs.Rooms.{Room};
ghost use Rattle.write_cells.specs.Lists.{cell_list};

use write_pieces::gates::Gate;
use write_pieces::numbers::put_list;

// The six lines again through buffers.
fn copy_of_lines(lines: u16, net: u16, bytes: &mut [u8], at: usize) -> usize
    requires { (lines ≤ 1000) × (net ≤ 1050) × Room (each number_bytes (each occurrence_numbers (copy_row net lines 6))) bytes.old at }
    ensures { Put (each number_bytes (each occurrence_numbers (copy_row net lines 6))) bytes.old at bytes.new result }
{
    let mut at = at;
    for i in 0..6 {
        at = put_list(&[1, net + i, Gate::Buffer as u16, 1, lines + i], bytes, at);
    }
    at
}

// So many copies of the lines, the nets of a copy behind those of the one before.
pub fn copies(lines: u16, net: u16, count: u16, bytes: &mut [u8], at: usize) -> usize
    requires { (lines ≤ 1000) × (net ≤ 1000) × (count ≤ 8) × Room (each number_bytes (each occurrence_numbers (copiesOf lines net count))) bytes.old at }
    ensures { Put (each number_bytes (each occurrence_numbers (copiesOf lines net count))) bytes.old at bytes.new result }
{
    let mut at = at;
    for i in 0..count {
        at = copy_of_lines(lines, net + 6 * i, bytes, at);
    }
    at
}

// The first of the six lines that the cell of a bit takes: its copy, or the lines themselves where there are none.
fn lines_of(width: u16, copied: u16, i: u16) -> u16
    requires { (width ≤ 64) × (copied ≤ 8) × (i ≤ 64) }
    ensures { result ≡ lines_of width copied i }
{
    7 * width + 10 + 6 * copied.min(i / 8 + 1)
}

// The cell of a bit, by module 50.
fn cell_at(width: u16, copied: u16, i: u16, bytes: &mut [u8], at: usize) -> usize
    requires { (width ≤ 64) × (copied ≤ 8) × (i ≤ 64) × Room (each number_bytes (cell_list width copied i)) bytes.old at }
    ensures { Put (each number_bytes (cell_list width copied i)) bytes.old at bytes.new result }
{
    let lines = lines_of(width, copied, i);
    let p = 3 * width + 7 + i;
    let g = 4 * width + 7 + i;
    let q = 5 * width + 7 + i;
    put_list(
        &[
            3,
            p,
            g,
            q,
            50,
            9,
            1 + i,
            2 + i,
            width + 2 + i,
            lines,
            lines + 1,
            lines + 2,
            lines + 3,
            lines + 4,
            lines + 5,
        ],
        bytes,
        at,
    )
}

// The cells of all bits.
pub fn cells(width: u16, copied: u16, bytes: &mut [u8], at: usize) -> usize
    requires { (width ≤ 64) × (copied ≤ 8) × Room (each number_bytes (each occurrence_numbers (cells_of width copied 0 width))) bytes.old at }
    ensures { Put (each number_bytes (each occurrence_numbers (cells_of width copied 0 width))) bytes.old at bytes.new result }
{
    let mut at = at;
    for i in 0..width {
        at = cell_at(width, copied, i, bytes, at);
    }
    at
}
