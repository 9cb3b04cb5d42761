ghost use Rattle.std.specs.Prelude.{◌≡◌, ◌+◌, ◌-◌, ◌*◌, ◌/◌, ◌%◌, ◌<◌, ◌≤◌, ◌⊎◌, ℕ, ℤ, List, length};
ghost use Rattle.codec_terms.specs.Grid.{grid_of};
ghost use Rattle.wave_laws.specs.Rows.{row_after};
ghost use Rattle.dwt97.specs.Plane.{row_in};
ghost use Rattle.dwt97.specs.Rounds.{AreLifted, IsBeforeRound, IsLiftable, IsMade};

use crate::plane::{lift_first, lift_fourth, lift_second, lift_third};

// Step 1 of row y, where there is such a row.
fn first_of(plane: &mut [i32], columns: usize, height: usize, y: usize)
    requires height { 2 ≤ height }
    requires whole { length plane.old ≡ columns * height }
    requires odd { y % 2 ≡ 1 }
    ensures { (area : List (List ℤ)) (made second third fourth : ℕ) → IsLiftable area → length area ≡ height
        → second < y → third ≤ y → made ≤ height → (y + 1 < made) ⊎ (made ≡ height)
        → AreLifted area columns made y second third fourth plane.old
        → AreLifted area columns made (y + 2) second third fourth plane.new }
{
    if y < height {
        lift_first(plane, columns, height, y);
    }
}

// Step 2 of row y, where there is such a row.
fn second_of(plane: &mut [i32], columns: usize, height: usize, y: usize)
    requires height { 2 ≤ height }
    requires whole { length plane.old ≡ columns * height }
    requires even { y % 2 ≡ 0 }
    ensures { (area : List (List ℤ)) (made first third fourth : ℕ) → IsLiftable area → length area ≡ height
        → y + 1 < first → third ≤ y - 1 → fourth ≤ y → made ≤ height → (y + 1 < made) ⊎ (made ≡ height)
        → AreLifted area columns made first y third fourth plane.old
        → AreLifted area columns made first (y + 2) third fourth plane.new }
{
    if y < height {
        lift_second(plane, columns, height, y);
    }
}

// Step 3 of row y, where there is such a row.
fn third_of(plane: &mut [i32], columns: usize, height: usize, y: usize)
    requires height { 2 ≤ height }
    requires whole { length plane.old ≡ columns * height }
    requires odd { y % 2 ≡ 1 }
    ensures { (area : List (List ℤ)) (made first second fourth : ℕ) → IsLiftable area → length area ≡ height
        → y < first → y + 1 < second → fourth < y → made ≤ height → (y + 1 < made) ⊎ (made ≡ height)
        → AreLifted area columns made first second y fourth plane.old
        → AreLifted area columns made first second (y + 2) fourth plane.new }
{
    if y < height {
        lift_third(plane, columns, height, y);
    }
}

// Step 4 of row y, where there is such a row.
fn fourth_of(plane: &mut [i32], columns: usize, height: usize, y: usize)
    requires height { 2 ≤ height }
    requires whole { length plane.old ≡ columns * height }
    requires even { y % 2 ≡ 0 }
    ensures { (area : List (List ℤ)) (made first second third : ℕ) → IsLiftable area → length area ≡ height
        → y < second → y + 1 < third → made ≤ height → (y + 1 < made) ⊎ (made ≡ height)
        → AreLifted area columns made first second third y plane.old
        → AreLifted area columns made first second third (y + 2) plane.new }
{
    if y < height {
        lift_fourth(plane, columns, height, y);
    }
}

/// The first steps of a plane's columns, once rows 0 to 2 are made (or all, where there are fewer).
pub fn start(plane: &mut [i32], columns: usize, height: usize)
    requires least { 2 ≤ height }
    requires most { height ≤ 2048 }
    requires whole { length plane.old ≡ columns * height }
    ensures { (area : List (List ℤ)) (made : ℕ) → IsLiftable area → length area ≡ height
        → made ≤ height → (2 < made) ⊎ (made ≡ height)
        → IsMade area columns made plane.old → IsBeforeRound 0 area columns made plane.new }
{
    first_of(plane, columns, height, 1);
    second_of(plane, columns, height, 0);
}

/// A round of the steps of a plane's columns, once rows up to 2j + 4 are made (or all): rows 2j and 2j + 1 are done then, which
/// `finish_low_row` and `finish_high_row` take.
pub fn round(plane: &mut [i32], columns: usize, height: usize, j: usize)
    requires least { 2 ≤ height }
    requires most { height ≤ 2048 }
    requires whole { length plane.old ≡ columns * height }
    requires inside { j < height }
    ensures { (area : List (List ℤ)) (made : ℕ) → IsLiftable area → length area ≡ height
        → made ≤ height → (2 * j + 4 < made) ⊎ (made ≡ height)
        → IsBeforeRound j area columns made plane.old → IsBeforeRound (j + 1) area columns made plane.new }
{
    first_of(plane, columns, height, 2 * j + 3);
    second_of(plane, columns, height, 2 * j + 2);
    third_of(plane, columns, height, 2 * j + 1);
    fourth_of(plane, columns, height, 2 * j);
}

/// Steps 1 to 4 of all columns of a plane.
pub fn lift_columns(plane: &mut [i32], columns: usize, height: usize)
    requires least { 2 ≤ height }
    requires most { height ≤ 2048 }
    requires whole { length plane.old ≡ columns * height }
    ensures { let area = grid_of columns height plane.old in
        IsLiftable area → (y : ℕ) → y < height → row_in columns plane.new y ≡ row_after 4 area y }
{
    start(plane, columns, height);
    for j in 0..height - height / 2 {
        round(plane, columns, height, j);
    }
}
