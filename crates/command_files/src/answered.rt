// The bytes that a call has written at the front of a buffer.
use refusals::Refusal;
use rows_file::front;

pub fn written<'a>(made: Result<usize, Refusal>, buffer: &'a [u8]) -> Result<&'a [u8], Refusal> {
    Ok(front(made?, buffer))
}
