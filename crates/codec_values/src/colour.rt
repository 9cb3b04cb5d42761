ghost use Rattle.std.specs.Prelude.{◌≡◌, ◌^◌, ℕ, suc, [], ◌∷◌, map};
ghost use Rattle.codec_terms.specs.Colour.{xyz_value, x_weights, y_weights, z_weights, IsGreatest, has_fifth_power_within, fifth_root, is_code_within, code_value};

/// White, black and nearly black at each of the three powers.
pub fn colour_values()
    ensures white_x { map (λ p. xyz_value p x_weights 65535 65535 65535) (11 ∷ 12 ∷ 13 ∷ []) ≡ 3883 ∷ 3883 ∷ 3883 ∷ [] }
    ensures white_y { map (λ p. xyz_value p y_weights 65535 65535 65535) (11 ∷ 12 ∷ 13 ∷ []) ≡ 3960 ∷ 3960 ∷ 3960 ∷ [] }
    ensures white_z { map (λ p. xyz_value p z_weights 65535 65535 65535) (11 ∷ 12 ∷ 13 ∷ []) ≡ 4091 ∷ 4091 ∷ 4091 ∷ [] }
    ensures black { map (λ p. xyz_value p x_weights 0 0 0) (11 ∷ 12 ∷ 13 ∷ []) ≡ 0 ∷ 0 ∷ 0 ∷ [] }
    ensures dark { map (λ p. xyz_value p z_weights 1 1 1) (11 ∷ 12 ∷ 13 ∷ []) ≡ 0 ∷ 0 ∷ 0 ∷ [] }
{}

/// The fifth root and the code value are the greatest numbers within what they are of.
pub fn colour_laws()
    ensures fifth_root { (n : ℕ) → IsGreatest (has_fifth_power_within n) (2 ^ 25) (fifth_root n) }
    ensures code_value { (v : ℕ) → IsGreatest (is_code_within (suc v)) 4096 (code_value (suc v)) }
{}
