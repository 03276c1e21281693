// The modules that every ALU has alike (docs/ALU.md). No number of theirs passes 127, so their numbers are their bytes.
ghost use Rattle.meaning.specs.Layout.{module_numbers};
ghost use Rattle.meaning.specs.Alu.{control as controlOf, cell as cell_of};
ghost use Rattle.bytes_out.specs.Filled.{Put};
ghost use Rattle.write_pieces.specs.Rooms.{Room};

use write_pieces::bytes::copy;

// Module 49, the control: its head with the lines negate and ones; generate and pass p; pass and, shift and the carry in; what is shifted in,
// and the flip.
pub fn control(bytes: &mut [u8], at: usize) -> usize
    requires { Room (module_numbers controlOf) bytes.old at }
    ensures { Put (module_numbers controlOf) bytes.old at bytes.new result }
{
    let generate = copy(
        &[
            49, 7, 0, 1, 2, 3, 4, 5, 6, 9, 22, 23, 24, 25, 26, 27, 28, 29, 30, 24, 1, 22, 8, 2, 4,
            5, 1, 7, 10, 2, 5, 6, 1, 23, 8, 2, 4, 7,
        ],
        bytes,
        at,
    );
    let pass_and = copy(
        &[
            1, 8, 10, 2, 3, 5, 1, 9, 13, 2, 4, 8, 1, 24, 13, 2, 6, 9, 1, 10, 2, 2, 3, 4, 1, 11, 13,
            2, 3, 4, 1, 12, 2, 2, 5, 11, 1, 25, 3, 3, 6, 10, 12,
        ],
        bytes,
        generate,
    );
    let shifted_in = copy(
        &[
            1, 26, 10, 2, 7, 10, 1, 13, 1, 1, 5, 1, 27, 11, 3, 6, 13, 10, 1, 14, 9, 2, 3, 4, 1, 15,
            5, 2, 3, 0, 1, 16, 10, 2, 14, 15, 1, 17, 8, 2, 5, 16, 1, 28, 13, 2, 6, 17,
        ],
        bytes,
        pass_and,
    );
    copy(
        &[
            1, 18, 10, 2, 0, 11, 1, 19, 10, 2, 2, 3, 1, 29, 5, 2, 18, 19, 1, 20, 13, 2, 6, 13, 1,
            21, 10, 2, 1, 27, 1, 30, 5, 2, 20, 21,
        ],
        bytes,
        shifted_in,
    )
}

// Module 50, the cell: its head with the two bits that are added; p and g; and q.
pub fn cell(bytes: &mut [u8], at: usize) -> usize
    requires { Room (module_numbers cell_of) bytes.old at }
    ensures { Put (module_numbers cell_of) bytes.old at bytes.new result }
{
    let carries = copy(
        &[
            50, 9, 0, 1, 2, 3, 4, 5, 6, 7, 8, 3, 9, 10, 11, 8, 1, 12, 9, 2, 0, 3, 1, 13, 5, 2, 2, 4,
        ],
        bytes,
        at,
    );
    let either = copy(
        &[
            1, 9, 9, 2, 12, 13, 1, 10, 11, 3, 12, 13, 5, 1, 14, 2, 2, 9, 6,
        ],
        bytes,
        carries,
    );
    copy(
        &[
            1, 15, 3, 3, 12, 13, 7, 1, 16, 2, 2, 1, 8, 1, 11, 3, 3, 14, 15, 16,
        ],
        bytes,
        either,
    )
}
