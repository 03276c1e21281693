// The library that others see: total functions on slices, with no `requires`. Each has its contract where it is defined.
#![tactic(auto)]

mod judged; // judged.rt: the check

pub use answers::Run;
pub use call_count::counts::Figures;
pub use call_door::{count, evaluate, evaluate_rows, flatten, modules, number_at};
pub use call_join::join;
pub use call_look_up::{Looked, Stretch, look_up, which_shelf};
pub use call_ndl::write_ndl;
pub use call_print::print_text;
pub use call_rewrite::{rewrite, strict_check};
pub use call_text::read_text;
pub use families::Family;
pub use judged::check;
pub use refusals::Refusal;
pub use two_files::{ShelfRefusal, Which};
pub use write_order::{adder, alu, counter, fast_adder};
