ghost use Rattle.std.specs.Prelude.{◌≡◌, ◌+◌, ◌<◌, ◌≤◌, length};
ghost use Rattle.std.specs.Int.{w32};
ghost use Rattle.codec_terms.specs.Wavelet.{sample};
ghost use Rattle.wave_laws.specs.Rows.{step_factor, lifted_odd, lifted_even};
ghost use Rattle.dwt97.specs.Lifting.{FitsLifts, even_behind, odd_before, odd_behind};

use crate::lifting::{first, fourth, second, third};

/// Step 1 of a line's odd samples, between its even ones.
#[inline(never)]
pub(crate) fn first_across(odd: &mut [i32], even: &[i32])
    requires some { 0 < length odd.old }
    requires least { length odd.old ≤ length even.now }
    requires most { length even.now ≤ length odd.old + 1 }
    ensures { FitsLifts w32 (step_factor 1) odd.old (sample even.now) (even_behind even.now)
        → odd.new ≡ lifted_odd (step_factor 1) even.now odd.old }
{
    let last = even.len() - 1;
    for i in 0..last {
        odd[i] = first(odd[i], even[i], even[i + 1]);
    }
    if last < odd.len() {
        odd[last] = first(odd[last], even[last], even[last]);
    }
}

/// Step 2 of a line's even samples, between its odd ones.
#[inline(never)]
pub(crate) fn second_across(even: &mut [i32], odd: &[i32])
    requires some { 0 < length odd.now }
    requires least { length odd.now ≤ length even.old }
    requires most { length even.old ≤ length odd.now + 1 }
    ensures { FitsLifts w32 (step_factor 2) even.old (odd_before odd.now) (odd_behind odd.now)
        → even.new ≡ lifted_even (step_factor 2) even.old odd.now }
{
    even[0] = second(even[0], odd[0], odd[0]);
    for i in 1..odd.len() {
        even[i] = second(even[i], odd[i - 1], odd[i]);
    }
    let last = odd.len();
    if last < even.len() {
        even[last] = second(even[last], odd[last - 1], odd[last - 1]);
    }
}

/// Step 3 of a line's odd samples, between its even ones.
#[inline(never)]
pub(crate) fn third_across(odd: &mut [i32], even: &[i32])
    requires some { 0 < length odd.old }
    requires least { length odd.old ≤ length even.now }
    requires most { length even.now ≤ length odd.old + 1 }
    ensures { FitsLifts w32 (step_factor 3) odd.old (sample even.now) (even_behind even.now)
        → odd.new ≡ lifted_odd (step_factor 3) even.now odd.old }
{
    let last = even.len() - 1;
    for i in 0..last {
        odd[i] = third(odd[i], even[i], even[i + 1]);
    }
    if last < odd.len() {
        odd[last] = third(odd[last], even[last], even[last]);
    }
}

/// Step 4 of a line's even samples, between its odd ones.
#[inline(never)]
pub(crate) fn fourth_across(even: &mut [i32], odd: &[i32])
    requires some { 0 < length odd.now }
    requires least { length odd.now ≤ length even.old }
    requires most { length even.old ≤ length odd.now + 1 }
    ensures { FitsLifts w32 (step_factor 4) even.old (odd_before odd.now) (odd_behind odd.now)
        → even.new ≡ lifted_even (step_factor 4) even.old odd.now }
{
    even[0] = fourth(even[0], odd[0], odd[0]);
    for i in 1..odd.len() {
        even[i] = fourth(even[i], odd[i - 1], odd[i]);
    }
    let last = odd.len();
    if last < even.len() {
        even[last] = fourth(even[last], odd[last - 1], odd[last - 1]);
    }
}
