// The chip family that a file holds.
use families::Family;
use std::rt::Files;

// What is in the file of a name: the family of sixteen bytes; the unit family where there are fewer or more, or no such file.
pub fn in_file(rt: &impl Files, name: &[u8]) -> Family {
    let mut bytes = [0u8; 17];
    let Ok(mut file) = streams::open(rt, name) else {
        return families::unit();
    };
    match streams::read_full(&mut file, &mut bytes) {
        Ok(count) => families::of_bytes(&bytes[..count]),
        Err(_) => families::unit(),
    }
}

// That of the folder where the program runs.
pub fn here(rt: &impl Files) -> Family {
    in_file(rt, b"family")
}
