// What stands of a module in front of its occurrences: rules 6 and 8 to 10, and its part of the image.
ghost use Rattle.check_modules.specs.Heads.{PortsReady, PortsJudged, HeadReady, HeadJudged, HeadWritable, HeadWritten};

// Rules 8 to 10, or the one that is broken first. Where all hold the table knows the inputs.
fn judge_ports(inputs: &[u16], outputs: &[u16], slots: &mut [u32], base: u32) -> Result<(), u16>
    requires { PortsReady inputs.now outputs.now slots.old base }
    ensures { PortsJudged inputs.now outputs.now base slots.new result }
{
    if nets::repeats::has_repeat(inputs) {
        return Err(8);
    }
    if nets::repeats::has_repeat(outputs) {
        return Err(9);
    }
    nets::table::learn(inputs, slots, base);
    if nets::table::any_known(outputs, slots, base) {
        return Err(10);
    }
    Ok(())
}

// Rules 6 and 8 to 10 for the module whose numbers are given, or the one that is broken first.
pub fn judge_head(numbers: &[u16], slots: &mut [u32], base: u32) -> Result<(), u16>
    requires { HeadReady numbers.now slots.old base }
    ensures { HeadJudged numbers.now base slots.new result }
{
    if numbers[0] < 16 {
        return Err(6);
    }
    let n = check_lists::lists::list_end(numbers, 1);
    let o = n + 1;
    let e = check_lists::lists::list_end(numbers, n);
    judge_ports(&numbers[2..n], &numbers[o..e], slots, base)
}

// Makes the head its part of the image: position, inputs and outputs by their slots. Its inputs are known; answers whether its outputs are.
pub fn write_head(numbers: &mut [u16], k: usize, slots: &[u32], base: u32, nets: u32) -> bool
    requires { HeadWritable numbers.old slots.now base k nets }
    ensures { HeadWritten numbers.old slots.now base k nets numbers.new result }
{
    let o = check_lists::lists::list_end(numbers, 1);
    numbers[0] = (16 + k) as u16;
    check_lists::lists::write_list(numbers, 1, slots, base, nets);
    let outputs = image::entry(numbers, o);
    check_lists::lists::write_list(numbers, o, slots, base, nets) == outputs
}
