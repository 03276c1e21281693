// Orders: an adder, a fast adder, a leading-zero counter or an ALU of a width, written into a lent buffer.
ghost use Rattle.std.specs.Prelude.{◌≤◌, ◌≡◌, length};
ghost use Rattle.meaning.specs.Layout.{encode};
ghost use Rattle.meaning.specs.Adder.{adder as adderOf};
ghost use Rattle.meaning.specs.FastAdder.{fast_adder as fastAdderOf};
ghost use Rattle.meaning.specs.Counter.{counter as counterOf};
ghost use Rattle.meaning.specs.Alu.{alu as aluOf};
ghost use Rattle.meaning.specs.Calls.{writing, fitting};
ghost use Rattle.bytes_out.specs.Filled.{Filled};
ghost use Rattle.answers.specs.Answers.{Answers};
ghost use Rattle.write_order.specs.Orders.{modules_of, enough_for};

use crate::answer::answer;
use refusals::Refusal;

// What is written to order.
#[derive(Clone, Copy)]
enum Order {
    Adder,
    FastAdder,
    Counter,
    Alu,
}

// Room for every adder and counter, and for fast adders and ALUs that are narrow.
const SHORT: usize = 1019;

// Room for every file that is written to order.
const LONG: usize = 7120;

// So many bytes are enough for the file.
fn enough(order: Order, width: usize) -> usize
    requires { width ≤ 64 }
    ensures { result ≡ enough_for order width }
{
    match order {
        Order::Adder => SHORT,
        Order::FastAdder => 86 * width + 132,
        Order::Counter => SHORT,
        Order::Alu => 100 * width + 720,
    }
}

// The bytes of the whole file, and how many they are.
fn file(order: Order, width: usize, bytes: &mut [u8]) -> usize
    requires { (1 ≤ width) × (width ≤ 64) × (enough_for order width ≤ length bytes.old) }
    ensures { Filled (encode (modules_of order width)) bytes.old bytes.new result }
{
    match order {
        Order::Adder => write_ripple::file(width as u16, bytes),
        Order::FastAdder => write_fast::file(width as u16, bytes),
        Order::Counter => write_counter::file(width as u8, bytes),
        Order::Alu => write_alu::file(width as u16, bytes),
    }
}

// Writes the file into a list of N bytes, and answers from there.
fn by_list<const N: usize>(order: Order, width: usize, out: &mut [u8]) -> Result<usize, Refusal>
    requires { (1 ≤ width) × (width ≤ 64) × (enough_for order width ≤ N) × (N ≤ 7120) }
    ensures { Answers (fitting (encode (modules_of order width)) 0 (length out.old)) out.old out.new result }
{
    let mut list = [0u8; N];
    let count = file(order, width, &mut list);
    answer(&list[..count], out)
}

// Writes straight into a buffer that has room for any file of the order and the width. Of a shorter one nothing may be touched before the
// file is sure to fit: its bytes are written into a list of the writer's own first, a short one where that will do.
fn deliver(order: Order, width: usize, out: &mut [u8]) -> Result<usize, Refusal>
    requires { (1 ≤ width) × (width ≤ 64) }
    ensures { Answers (fitting (encode (modules_of order width)) 0 (length out.old)) out.old out.new result }
{
    let bytes = enough(order, width);
    if bytes <= out.len() {
        return Ok(file(order, width, out));
    }
    if bytes <= SHORT {
        by_list::<SHORT>(order, width, out)
    } else {
        by_list::<LONG>(order, width, out)
    }
}

// 23 where the width is outside 1 to 64, then 22.
fn write(order: Order, width: usize, out: &mut [u8]) -> Result<usize, Refusal>
    ensures { Answers (writing (modules_of order) width (length out.old)) out.old out.new result }
{
    match width {
        1..=64 => deliver(order, width, out),
        _ => Err(Refusal {
            number: 23,
            place: 0,
        }),
    }
}

// Writes the adder of a width into `out`.
pub fn adder(width: usize, out: &mut [u8]) -> Result<usize, Refusal>
    ensures { Answers (writing adderOf width (length out.old)) out.old out.new result }
{
    write(Order::Adder, width, out)
}

// Writes the propagate-generate adder of a width into `out`.
pub fn fast_adder(width: usize, out: &mut [u8]) -> Result<usize, Refusal>
    ensures { Answers (writing fastAdderOf width (length out.old)) out.old out.new result }
{
    write(Order::FastAdder, width, out)
}

// Writes the leading-zero counter of a width into `out`.
pub fn counter(width: usize, out: &mut [u8]) -> Result<usize, Refusal>
    ensures { Answers (writing counterOf width (length out.old)) out.old out.new result }
{
    write(Order::Counter, width, out)
}

// Writes the ALU of a width into `out`.
pub fn alu(width: usize, out: &mut [u8]) -> Result<usize, Refusal>
    ensures { Answers (writing aluOf width (length out.old)) out.old out.new result }
{
    write(Order::Alu, width, out)
}
