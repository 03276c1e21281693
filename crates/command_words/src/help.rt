// How each command is asked for: `gimlet help` prints these one after the other.

// Commands that ask about the modules of a file.
pub const ASKING: &[u8] = b"\
gimlet check FILE                whether the file is accepted: ok, or refused and why
gimlet strict FILE               whether it is accepted and uses no four-input gate
gimlet rewrite FILE OUT          writes it with gates of two inputs in place of those of
                                 four
gimlet list FILE                 a line for each module: position, number, inputs,
                                 outputs, gates, size, room, delay, largest load,
                                 delay by the chip family of the file `family`, which
                                 has sixteen bytes, the gates' delays; else all are 1
gimlet count FILE MODULE         the figures of a module, and its gates of each kind
gimlet list --family CHIP FILE   the same by the family of the file CHIP, and so
gimlet count --family CHIP ..    are the figures
gimlet family 1 1 2 ..           writes sixteen delays, 0 to 255, to the file `family`
gimlet run FILE MODULE VALUES    the outputs of a module; values and outputs are words
                                 of 0, 1 and 2, where 2 is unknown; a value may also
                                 be 3, which floats; x and z stand for 2 and 3, and _
                                 may stand between groups of values
gimlet run --work FILE ..        the same, and a last line with the occurrences it ran
gimlet rows FILE MODULE ROWS OUT runs the module on each line of ROWS, a word of values
                                 as for run, and writes its outputs as a line of OUT
gimlet rows --work FILE ..       the same, and a last line with the occurrences they ran
";

// Commands that make a file or a text.
pub const MAKING: &[u8] = b"\
gimlet flatten FILE MODULE OUT   writes the module as plain gates to the file OUT
gimlet find GROUP HOUSE MODULE   which file has the module, the group's before the
                                 house's; with a word OUT more, writes a file of it
gimlet join GROUP HOUSE OUT      writes the group's modules and the house's that the
                                 group lacks. A module of the house that refers to one
                                 which the group has too is then refused with 13
gimlet ndl FILE OUT              writes a listing for a board maker; with a word NAMES
                                 more, under the gate names of that file, 8 bytes each
gimlet adder WIDTH OUT           writes an adder, width 1 to 64; its module is 18
gimlet fast-adder WIDTH OUT      writes a propagate-generate adder, width 1 to 64; its
                                 module is 40
gimlet alu WIDTH OUT             writes an arithmetic unit of sixteen operations, width
                                 1 to 64; its module is 48
gimlet counter WIDTH OUT         writes a leading-zero counter, width 1 to 64; its
                                 module is 32
gimlet read TEXT OUT             makes the file OUT from a text in the published list form
gimlet print FILE                the file as such a text; with a word MODULE more, the
                                 module alone, as a list of one
";

// Commands that file words of bases, and this one.
pub const FILING: &[u8] = b"\
gimlet file WORD                 the shelf of a word of 1 to 16 bases A, C, G and T: the
                                 leading zeros of its 32 bits, 0 to 32
gimlet file-sequence FILE LENGTH how many words of that length go to each shelf, a line
                                 with a bar for each, and the total. FILE holds bases,
                                 or is FASTA: each record is a sequence of its own
gimlet help                      this text
";

// What the words and the answers are.
pub const WORDS: &[u8] = b"\
FILE or ROWS may be -, for standard input. FILE, GROUP and HOUSE may be texts in the
published list form where their names end in .lisp, .list or .lsp. MODULE is a module's
number; of a FILE that is a text it may be a name.
An answer is one line, and with --work a last one more; a listing and file-sequence have more lines.
A refusal is a line with its number and place, and lines that say them in words.
What could not be carried out at all is a line that begins with failed.
";
