// A command line: words that each end with a byte of 0.
use std::str;

// Puts the words of a line into a list, as many as there is room for, and answers those that do end: none where they are more.
pub fn split<'a, 'b>(line: &'a [u8], words: &'b mut [&'a [u8]]) -> &'b [&'a [u8]] {
    for (place, word) in words.iter_mut().zip(line.split(|byte| *byte == 0)) {
        *place = word;
    }
    let count = line.iter().filter(|byte| **byte == 0).count();
    words.get(..count).unwrap_or(&[])
}

// A number from 0 to 65,535 in decimal. A sign is no part of one.
pub fn parse(word: &[u8]) -> Option<u16> {
    if !word.iter().all(u8::is_ascii_digit) {
        return None;
    }
    str::from_utf8(word).ok()?.parse().ok()
}
