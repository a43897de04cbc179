// Written by tools/rows/generate_rows.py.
ghost use Rattle.std.specs.Prelude.{◌≡◌, None, Some, codes};
ghost use Rattle.st_rules.specs.Generator.{candidate};
ghost use Rattle.st_rows_world.specs.GeneratedWords.{line_of};

/// A candidate from 5 (kind 0, even advance): after 30 messages and 4 commands, after one of each,
/// and at the start.
#[tactic(auto, unfolding(crate::specs::GeneratedWords::rows_open))]
pub fn even_advance()
    ensures full { line_of (candidate 30 4 5).0 ≡ Some (codes "adv 54\n") }
    ensures full_state { (candidate 30 4 5).1 ≡ 2587011477941047999 }
    ensures first { line_of (candidate 1 1 5).0 ≡ Some (codes "adv 54\n") }
    ensures first_state { (candidate 1 1 5).1 ≡ 2587011477941047999 }
    ensures none { line_of (candidate 0 0 5).0 ≡ Some (codes "adv 54\n") }
    ensures none_state { (candidate 0 0 5).1 ≡ 2587011477941047999 }
{}

/// A candidate from 10 (kind 1, uneven advance): after 30 messages and 4 commands, after one of
/// each, and at the start.
#[tactic(auto, unfolding(crate::specs::GeneratedWords::rows_open))]
pub fn uneven_advance()
    ensures full { line_of (candidate 30 4 10).0 ≡ Some (codes "adv 100 101 100 100 101\n") }
    ensures full_state { (candidate 30 4 10).1 ≡ 17660472414477991616 }
    ensures first { line_of (candidate 1 1 10).0 ≡ Some (codes "adv 100 101 100 100 101\n") }
    ensures first_state { (candidate 1 1 10).1 ≡ 17660472414477991616 }
    ensures none { line_of (candidate 0 0 10).0 ≡ Some (codes "adv 100 101 100 100 101\n") }
    ensures none_state { (candidate 0 0 10).1 ≡ 17660472414477991616 }
{}

/// A candidate from 39 (kind 2, tick): after 30 messages and 4 commands, after one of each, and at
/// the start.
#[tactic(auto, unfolding(crate::specs::GeneratedWords::rows_open))]
pub fn tick()
    ensures full { line_of (candidate 30 4 39).0 ≡ Some (codes "tick c3\n") }
    ensures full_state { (candidate 30 4 39).1 ≡ 43117072558713777 }
    ensures first { line_of (candidate 1 1 39).0 ≡ Some (codes "tick c3\n") }
    ensures first_state { (candidate 1 1 39).1 ≡ 43117072558713777 }
    ensures none { line_of (candidate 0 0 39).0 ≡ Some (codes "tick c3\n") }
    ensures none_state { (candidate 0 0 39).1 ≡ 43117072558713777 }
{}

/// A candidate from 8 (kind 4, write): after 30 messages and 4 commands, after one of each, and at
/// the start.
#[tactic(auto, unfolding(crate::specs::GeneratedWords::rows_open))]
pub fn write()
    ensures full { line_of (candidate 30 4 8).0 ≡ Some (codes "app c1 write 1:5 2 91\n") }
    ensures full_state { (candidate 30 4 8).1 ≡ 1440189496091789774 }
    ensures first { line_of (candidate 1 1 8).0 ≡ Some (codes "app c1 write 1:5 2 91\n") }
    ensures first_state { (candidate 1 1 8).1 ≡ 1440189496091789774 }
    ensures none { line_of (candidate 0 0 8).0 ≡ Some (codes "app c1 write 1:5 2 91\n") }
    ensures none_state { (candidate 0 0 8).1 ≡ 1440189496091789774 }
{}

/// A candidate from 13 (kind 5, read): after 30 messages and 4 commands, after one of each, and at
/// the start.
#[tactic(auto, unfolding(crate::specs::GeneratedWords::rows_open))]
pub fn read()
    ensures full { line_of (candidate 30 4 13).0 ≡ Some (codes "app c3 read 1:5 0\n") }
    ensures full_state { (candidate 30 4 13).1 ≡ 13600990656008014284 }
    ensures first { line_of (candidate 1 1 13).0 ≡ Some (codes "app c3 read 1:5 0\n") }
    ensures first_state { (candidate 1 1 13).1 ≡ 13600990656008014284 }
    ensures none { line_of (candidate 0 0 13).0 ≡ Some (codes "app c3 read 1:5 0\n") }
    ensures none_state { (candidate 0 0 13).1 ≡ 13600990656008014284 }
{}

/// A candidate from 1 (kind 6, sync): after 30 messages and 4 commands, after one of each, and at
/// the start.
#[tactic(auto, unfolding(crate::specs::GeneratedWords::rows_open))]
pub fn sync()
    ensures full { line_of (candidate 30 4 1).0 ≡ Some (codes "app c1 sync 1:8\n") }
    ensures full_state { (candidate 30 4 1).1 ≡ 7062582979898595269 }
    ensures first { line_of (candidate 1 1 1).0 ≡ Some (codes "app c1 sync 1:8\n") }
    ensures first_state { (candidate 1 1 1).1 ≡ 7062582979898595269 }
    ensures none { line_of (candidate 0 0 1).0 ≡ Some (codes "app c1 sync 1:8\n") }
    ensures none_state { (candidate 0 0 1).1 ≡ 7062582979898595269 }
{}

/// A candidate from 6 (kind 7, deliver): after 30 messages and 4 commands, after one of each, and
/// at the start.
#[tactic(auto, unfolding(crate::specs::GeneratedWords::rows_open))]
pub fn deliver()
    ensures full { line_of (candidate 30 4 6).0 ≡ Some (codes "deliver 28\n") }
    ensures full_state { (candidate 30 4 6).1 ≡ 10107909202251382952 }
    ensures first { line_of (candidate 1 1 6).0 ≡ Some (codes "deliver 1\n") }
    ensures first_state { (candidate 1 1 6).1 ≡ 10107909202251382952 }
    ensures none { line_of (candidate 0 0 6).0 ≡ None }
    ensures none_state { (candidate 0 0 6).1 ≡ 2734024236550618205 }
{}

/// A candidate from 9 (kind 11, effect): after 30 messages and 4 commands, after one of each, and
/// at the start.
#[tactic(auto, unfolding(crate::specs::GeneratedWords::rows_open))]
pub fn effect()
    ensures full { line_of (candidate 30 4 9).0 ≡ Some (codes "effect 3\n") }
    ensures full_state { (candidate 30 4 9).1 ≡ 14223858301472836195 }
    ensures first { line_of (candidate 1 1 9).0 ≡ Some (codes "effect 1\n") }
    ensures first_state { (candidate 1 1 9).1 ≡ 14223858301472836195 }
    ensures none { line_of (candidate 0 0 9).0 ≡ None }
    ensures none_state { (candidate 0 0 9).1 ≡ 3379688834381445604 }
{}

/// A candidate from 2 (kind 12, success): after 30 messages and 4 commands, after one of each, and
/// at the start.
#[tactic(auto, unfolding(crate::specs::GeneratedWords::rows_open))]
pub fn success()
    ensures full { line_of (candidate 30 4 2).0 ≡ Some (codes "report 2 ok\n") }
    ensures full_state { (candidate 30 4 2).1 ≡ 16917806452429146372 }
    ensures first { line_of (candidate 1 1 2).0 ≡ Some (codes "report 1 ok\n") }
    ensures first_state { (candidate 1 1 2).1 ≡ 16917806452429146372 }
    ensures none { line_of (candidate 0 0 2).0 ≡ None }
    ensures none_state { (candidate 0 0 2).1 ≡ 14170967488582549417 }
{}

/// A candidate from 19 (kind 13, report): after 30 messages and 4 commands, after one of each, and
/// at the start.
#[tactic(auto, unfolding(crate::specs::GeneratedWords::rows_open))]
pub fn report()
    ensures full { line_of (candidate 30 4 19).0 ≡ Some (codes "report 1 ok\n") }
    ensures full_state { (candidate 30 4 19).1 ≡ 7803132824964598600 }
    ensures first { line_of (candidate 1 1 19).0 ≡ Some (codes "report 1 ok\n") }
    ensures first_state { (candidate 1 1 19).1 ≡ 7803132824964598600 }
    ensures none { line_of (candidate 0 0 19).0 ≡ None }
    ensures none_state { (candidate 0 0 19).1 ≡ 11680818851720720806 }
{}

/// A candidate from 60 (kind 14, lose): after 30 messages and 4 commands, after one of each, and at
/// the start.
#[tactic(auto, unfolding(crate::specs::GeneratedWords::rows_open))]
pub fn lose()
    ensures full { line_of (candidate 30 4 60).0 ≡ Some (codes "lose 25\n") }
    ensures full_state { (candidate 30 4 60).1 ≡ 3458535828004280965 }
    ensures first { line_of (candidate 1 1 60).0 ≡ Some (codes "lose 1\n") }
    ensures first_state { (candidate 1 1 60).1 ≡ 3458535828004280965 }
    ensures none { line_of (candidate 0 0 60).0 ≡ None }
    ensures none_state { (candidate 0 0 60).1 ≡ 10408016693399334862 }
{}

/// A candidate from 48 (kind 14, cut): after 30 messages and 4 commands, after one of each, and at
/// the start.
#[tactic(auto, unfolding(crate::specs::GeneratedWords::rows_open))]
pub fn cut()
    ensures full { line_of (candidate 30 4 48).0 ≡ Some (codes "cut c1 c2\n") }
    ensures full_state { (candidate 30 4 48).1 ≡ 9597493602593029348 }
    ensures first { line_of (candidate 1 1 48).0 ≡ Some (codes "cut c1 c2\n") }
    ensures first_state { (candidate 1 1 48).1 ≡ 9597493602593029348 }
    ensures none { line_of (candidate 0 0 48).0 ≡ Some (codes "cut c1 c2\n") }
    ensures none_state { (candidate 0 0 48).1 ≡ 9597493602593029348 }
{}

/// A candidate from 7 (kind 14, heal): after 30 messages and 4 commands, after one of each, and at
/// the start.
#[tactic(auto, unfolding(crate::specs::GeneratedWords::rows_open))]
pub fn heal()
    ensures full { line_of (candidate 30 4 7).0 ≡ Some (codes "heal s1 s1\n") }
    ensures full_state { (candidate 30 4 7).1 ≡ 5031285092534963243 }
    ensures first { line_of (candidate 1 1 7).0 ≡ Some (codes "heal s1 s1\n") }
    ensures first_state { (candidate 1 1 7).1 ≡ 5031285092534963243 }
    ensures none { line_of (candidate 0 0 7).0 ≡ Some (codes "heal s1 s1\n") }
    ensures none_state { (candidate 0 0 7).1 ≡ 5031285092534963243 }
{}

/// A candidate from 12 (kind 15, crash): after 30 messages and 4 commands, after one of each, and
/// at the start.
#[tactic(auto, unfolding(crate::specs::GeneratedWords::rows_open))]
pub fn crash()
    ensures full { line_of (candidate 30 4 12).0 ≡ Some (codes "crash c3\n") }
    ensures full_state { (candidate 30 4 12).1 ≡ 2246005067569196181 }
    ensures first { line_of (candidate 1 1 12).0 ≡ Some (codes "crash c3\n") }
    ensures first_state { (candidate 1 1 12).1 ≡ 2246005067569196181 }
    ensures none { line_of (candidate 0 0 12).0 ≡ Some (codes "crash c3\n") }
    ensures none_state { (candidate 0 0 12).1 ≡ 2246005067569196181 }
{}

/// A candidate from 0 (kind 15, start): after 30 messages and 4 commands, after one of each, and at
/// the start.
#[tactic(auto, unfolding(crate::specs::GeneratedWords::rows_open))]
pub fn start()
    ensures full { line_of (candidate 30 4 0).0 ≡ Some (codes "start c3\n") }
    ensures full_state { (candidate 30 4 0).1 ≡ 11166244414315200793 }
    ensures first { line_of (candidate 1 1 0).0 ≡ Some (codes "start c3\n") }
    ensures first_state { (candidate 1 1 0).1 ≡ 11166244414315200793 }
    ensures none { line_of (candidate 0 0 0).0 ≡ Some (codes "start c3\n") }
    ensures none_state { (candidate 0 0 0).1 ≡ 11166244414315200793 }
{}

/// A candidate from 53 (kind 15, late tick): after 30 messages and 4 commands, after one of each,
/// and at the start.
#[tactic(auto, unfolding(crate::specs::GeneratedWords::rows_open))]
pub fn late_tick()
    ensures full { line_of (candidate 30 4 53).0 ≡ Some (codes "tick s1\n") }
    ensures full_state { (candidate 30 4 53).1 ≡ 16348152144318430162 }
    ensures first { line_of (candidate 1 1 53).0 ≡ Some (codes "tick s1\n") }
    ensures first_state { (candidate 1 1 53).1 ≡ 16348152144318430162 }
    ensures none { line_of (candidate 0 0 53).0 ≡ Some (codes "tick s1\n") }
    ensures none_state { (candidate 0 0 53).1 ≡ 16348152144318430162 }
{}
