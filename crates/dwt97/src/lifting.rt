ghost use Rattle.std.specs.Prelude.{◌≡◌, ◌^◌, ◌≤ℤ◌, ◌+ℤ◌, pos};
ghost use Rattle.std.specs.Int.{int_wrap, w32};
ghost use Rattle.codec_terms.specs.Wavelet.{scaled};
ghost use Rattle.wave_laws.specs.Rows.{step_factor, lifted_by};
ghost use Rattle.dwt97.specs.Lifting.{FitsLift};

// The low 32 bits of k times s, where k is in units of 2^-16 and the product is rounded down.
#[inline(always)]
pub(crate) fn part(k: i64, s: i32) -> i32
    requires low { pos 0 ≤ℤ k }
    requires high { k ≤ℤ pos (2 ^ 17) }
    ensures { result ≡ int_wrap w32 (scaled k s) }
{
    let down = k * i64::from(s) >> 16;
    ((down.cast_unsigned() & 0xffff_ffff) as u32).cast_signed()
}

// The factors of steps 1 and 2 are negative. What they are above a whole number isn't, and a product by a
// positive factor takes half the time.

#[inline(always)]
pub(crate) fn first(own: i32, before: i32, behind: i32) -> i32
    ensures { FitsLift w32 (step_factor 1) own before behind → result ≡ lifted_by (step_factor 1) own before behind }
{
    let sum = before.wrapping_add(behind);
    own.wrapping_add(part(27123, sum))
        .wrapping_sub(sum)
        .wrapping_sub(sum)
}

#[inline(always)]
pub(crate) fn second(own: i32, before: i32, behind: i32) -> i32
    ensures { FitsLift w32 (step_factor 2) own before behind → result ≡ lifted_by (step_factor 2) own before behind }
{
    let sum = before.wrapping_add(behind);
    own.wrapping_add(part(62064, sum)).wrapping_sub(sum)
}

#[inline(always)]
pub(crate) fn third(own: i32, before: i32, behind: i32) -> i32
    ensures { FitsLift w32 (step_factor 3) own before behind → result ≡ lifted_by (step_factor 3) own before behind }
{
    own.wrapping_add(part(57862, before.wrapping_add(behind)))
}

#[inline(always)]
pub(crate) fn fourth(own: i32, before: i32, behind: i32) -> i32
    ensures { FitsLift w32 (step_factor 4) own before behind → result ≡ lifted_by (step_factor 4) own before behind }
{
    own.wrapping_add(part(29066, before.wrapping_add(behind)))
}
