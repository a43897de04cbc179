// Written by tools/rows/generate_rows.py.
ghost use Rattle.std.specs.Prelude.{◌≡◌};
ghost use Rattle.st_rules.specs.Generator.{draw, state_after};

/// The first four draws from 0, below 16, 20, 3 and 256, and the state after them.
#[tactic(auto, unfolding(crate::specs::GeneratedWords::rows_open))]
pub fn seed_0()
    ensures draw_1 { draw 1 16 0 ≡ 15 }
    ensures draw_2 { draw 2 20 0 ≡ 4 }
    ensures draw_3 { draw 3 3 0 ≡ 1 }
    ensures draw_4 { draw 4 256 0 ≡ 116 }
    ensures state { state_after 4 0 ≡ 7401132627792533940 }
{}

/// The first four draws from 7, below 16, 20, 3 and 256, and the state after them.
#[tactic(auto, unfolding(crate::specs::GeneratedWords::rows_open))]
pub fn seed_7()
    ensures draw_1 { draw 1 16 7 ≡ 14 }
    ensures draw_2 { draw 2 20 7 ≡ 11 }
    ensures draw_3 { draw 3 3 7 ≡ 0 }
    ensures draw_4 { draw 4 256 7 ≡ 145 }
    ensures state { state_after 4 7 ≡ 5031285092534963243 }
{}

/// The first four draws from 9, below 16, 20, 3 and 256, and the state after them.
#[tactic(auto, unfolding(crate::specs::GeneratedWords::rows_open))]
pub fn seed_9()
    ensures draw_1 { draw 1 16 9 ≡ 11 }
    ensures draw_2 { draw 2 20 9 ≡ 1 }
    ensures draw_3 { draw 3 3 9 ≡ 2 }
    ensures draw_4 { draw 4 256 9 ≡ 116 }
    ensures state { state_after 4 9 ≡ 4354185796747085901 }
{}

/// The first four draws from 9223372036854775813, below 16, 20, 3 and 256, and the state after
/// them.
#[tactic(auto, unfolding(crate::specs::GeneratedWords::rows_open))]
pub fn high_seed()
    ensures draw_1 { draw 1 16 9223372036854775813 ≡ 0 }
    ensures draw_2 { draw 2 20 9223372036854775813 ≡ 17 }
    ensures draw_3 { draw 3 3 9223372036854775813 ≡ 0 }
    ensures draw_4 { draw 4 256 9223372036854775813 ≡ 173 }
    ensures state { state_after 4 9223372036854775813 ≡ 14931756425177616393 }
{}

/// The first four draws from 18446744073709551615, below 16, 20, 3 and 256, and the state after
/// them.
#[tactic(auto, unfolding(crate::specs::GeneratedWords::rows_open))]
pub fn last_seed()
    ensures draw_1 { draw 1 16 18446744073709551615 ≡ 8 }
    ensures draw_2 { draw 2 20 18446744073709551615 ≡ 3 }
    ensures draw_3 { draw 3 3 18446744073709551615 ≡ 1 }
    ensures draw_4 { draw 4 256 18446744073709551615 ≡ 2 }
    ensures state { state_after 4 18446744073709551615 ≡ 7739682275686472611 }
{}
