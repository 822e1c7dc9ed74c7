// The value that an operand selects.
ghost use Rattle.std.specs.Prelude.{◌≡◌};
ghost use Rattle.bus_tuples.specs.Selected.{selected_of};

use word::{add, mul, sub};

// The draft's polynomial.
fn selected_by_flags(flag: u32, fp_flag: u32, operand: u32, value: u32, fp: u32) -> u32
    ensures { result ≡ selected_of flag fp_flag operand value fp }
{
    let cell = mul(sub(sub(1, flag), fp_flag), value);
    add(
        add(mul(flag, operand), cell),
        mul(fp_flag, add(fp, operand)),
    )
}

// Immediate, looked up, or fp + operand. Only flags that are none of these take the polynomial.
pub fn selected(flag: u32, fp_flag: u32, operand: u32, value: u32, fp: u32) -> u32
    ensures { result ≡ selected_of flag fp_flag operand value fp }
{
    match (flag, fp_flag) {
        (0, 0) => add(value, 0),
        (1, 0) => add(operand, 0),
        (0, 1) => add(fp, operand),
        _ => selected_by_flags(flag, fp_flag, operand, value, fp),
    }
}
