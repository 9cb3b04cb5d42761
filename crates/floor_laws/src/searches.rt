ghost use Rattle.std.specs.Prelude.{◌≡◌, ◌≤◌, ◌<◌, ◌↔◌, IsTrue, ℕ, suc, ℤ, List};
ghost use Rattle.mast_base.specs.declared.limits.Limits.{Limits};
ghost use Rattle.codec_terms.specs.declared.picture.Shape.{Shape};
ghost use Rattle.codec_terms.specs.Cut.{IsWithin, is_within, IsLeastCut, least_cut};
ghost use Rattle.floor_laws.specs.Floors.{IsOver};
ghost use Rattle.floor_laws.specs.Searches.{IsSearched};

/// A search begins at any cut that is within the limits, as 720 is, and goes down by one cut at a time, each of which fits
/// or is passed by; the test says which.
pub fn search_laws()
    ensures test { (limits : Limits) (shape : Shape) (q : List ℤ) (cut : ℕ)
        → IsTrue (is_within limits shape q cut) ↔ IsWithin limits shape q cut }
    ensures begin { (limits : Limits) (shape : Shape) (q : List ℤ) (cut : ℕ) → cut ≤ 720
        → IsWithin limits shape q cut → IsSearched limits shape q cut cut }
    ensures fits { (limits : Limits) (shape : Shape) (q : List ℤ) (cut best : ℕ) → IsSearched limits shape q (suc cut) best
        → IsWithin limits shape q cut → IsSearched limits shape q cut cut }
    ensures passes { (limits : Limits) (shape : Shape) (q : List ℤ) (cut best : ℕ)
        → IsSearched limits shape q (suc cut) best → ¬ IsWithin limits shape q cut → IsSearched limits shape q cut best }
{}

/// Where no lower cut is within the limits, the best that was found is the least cut: where the search is down to 0, or a
/// floor is above its limit at the last cut or the one below it.
pub fn answer_laws()
    ensures least { (limits : Limits) (shape : Shape) (q : List ℤ) (from best : ℕ) → IsSearched limits shape q from best
        → ((lower : ℕ) → lower < from → ¬ IsWithin limits shape q lower) → IsLeastCut limits shape q best }
    ensures stop { (limits : Limits) (shape : Shape) (q : List ℤ) (from best : ℕ) → IsSearched limits shape q from best
        → ((lower : ℕ) → lower < from → ¬ IsWithin limits shape q lower) → least_cut limits shape q ≡ best }
    ensures over { (limits : Limits) (shape : Shape) (q : List ℤ) (from best cut : ℕ) → IsSearched limits shape q from best
        → IsOver limits shape q cut → from ≤ suc cut → least_cut limits shape q ≡ best }
    ensures zero { (limits : Limits) (shape : Shape) (q : List ℤ) (best : ℕ) → IsSearched limits shape q 0 best
        → least_cut limits shape q ≡ best }
{}
