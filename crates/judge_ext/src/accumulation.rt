// Rules 6 to 9 of an extension row: what its running result comes to.
ghost use Rattle.std.specs.Prelude.{◌≡◌, ◌/◌, ◌<◌, ltb, length};
ghost use Rattle.std.specs.List.{list_all};
ghost use Rattle.word.specs.Word.{p};
ghost use Rattle.word.specs.Element.{◌-ₑ◌, ◌·ₑ◌};
ghost use Rattle.rules.specs.Given.{zero_element?};
ghost use Rattle.rules.specs.Extension.{selected, comp_tail};
ghost use Rattle.judge_ext.specs.ExtParts.{sum_of, product_of, peq_of, operates_then, accumulates_then, row_of, paired_row};

use element::{difference, peq, product, scale, sum};
use judge_lookups::{first_failing, gated, next_row};
use rows::{Ext, ext_inside};
use word::sub;

// A flag times the difference of two elements is 0 in every coordinate. In a table that is accepted the flag is 0 or
// the two are equal: then nothing is computed.
fn gated_elements(flag: u32, a: [u32; 5], b: [u32; 5]) -> bool
    ensures { result ≡ zero_element? (flag ·ₑ (a -ₑ b)) }
{
    if flag == 0 {
        return true;
    }
    if a == b {
        return true;
    }
    gated(flag, a[0], b[0])
        & gated(flag, a[1], b[1])
        & gated(flag, a[2], b[2])
        & gated(flag, a[3], b[3])
        & gated(flag, a[4], b[4])
}

// Each rule is open on few rows: where its flag is 0 nothing is computed.
fn sums_hold(flag: u32, comp: [u32; 5], v: [u32; 5], b: [u32; 5], tail: [u32; 5]) -> bool
    ensures { result ≡ zero_element? (sum_of flag comp v b tail) }
{
    if flag == 0 {
        return true;
    }
    gated_elements(flag, difference(comp, sum(v, b)), tail)
}

fn products_hold(flag: u32, comp: [u32; 5], v: [u32; 5], b: [u32; 5], tail: [u32; 5]) -> bool
    ensures { result ≡ zero_element? (product_of flag comp v b tail) }
{
    if flag == 0 {
        return true;
    }
    gated_elements(flag, difference(comp, product(v, b)), tail)
}

fn peqs_hold(
    flag: u32,
    comp: [u32; 5],
    v: [u32; 5],
    b: [u32; 5],
    tail: [u32; 5],
    start: u32,
) -> bool
    ensures { result ≡ zero_element? (peq_of flag comp v b tail start) }
{
    if flag == 0 {
        return true;
    }
    let one: [u32; 5] = [start, 0, 0, 0, 0];
    gated_elements(flag, comp, product(peq(v, b), sum(tail, one)))
}

fn is_element(a: [u32; 5]) -> bool
    ensures { result ≡ list_all (λ word. ltb word p) a }
{
    a.iter().all(|word| *word < 2130706433)
}

// be·base + (1 - be)·vA. Words are left as they are.
fn selected_element(x: Ext) -> [u32; 5]
    ensures { result ≡ selected x }
{
    let base: [u32; 5] = [x.base, 0, 0, 0, 0];
    if (x.be == 0) & is_element(x.vA) {
        return x.vA;
    }
    if (x.be == 1) & (x.base < 2130706433) {
        return base;
    }
    sum(scale(x.be, base), scale(sub(1, x.be), x.vA))
}

// (1 - next start)·next comp
fn tail_of(y: Ext) -> [u32; 5]
    ensures { result ≡ comp_tail y }
{
    if (y.start == 0) & is_element(y.comp) {
        return y.comp;
    }
    scale(sub(1, y.start), y.comp)
}

// Rules 6 to 8.
fn operates(x: Ext, y: Ext, after: u32) -> u32
    ensures { result ≡ operates_then x y (selected x) (comp_tail y) after }
{
    let v = selected_element(x);
    let tail = tail_of(y);
    let sums = sums_hold(x.add, x.comp, v, x.vB, tail);
    let products = products_hold(x.mul, x.comp, v, x.vB, tail);
    let peqs = peqs_hold(x.peq, x.comp, v, x.vB, tail, y.start);
    first_failing(&[(6, sums), (7, products), (8, peqs)], after)
}

// Rules 6 to 9 of row r, which is read here, and by its caller: a row that is handed on is copied, and rows stand in
// cache. One with no operation, as padding is, has only rule 9.
pub(crate) fn accumulates(ext: &[u8], r: usize, after: u32) -> u32
    requires { r < length ext.now / 120 }
    ensures { result ≡ accumulates_then (row_of ext.now r) (paired_row ext.now r)
        (selected (row_of ext.now r)) (comp_tail (paired_row ext.now r)) after }
{
    let x = ext_inside(ext, 120 * r);
    let last = first_failing(&[(9, gated_elements(x.start, x.comp, x.res))], after);
    if (x.add == 0) & (x.mul == 0) & (x.peq == 0) {
        return last;
    }
    let y = ext_inside(ext, 120 * next_row(ext.len() / 120, r));
    operates(x, y, last)
}
