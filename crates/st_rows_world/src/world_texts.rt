// Written by tools/rows/text_rows.py.
ghost use Rattle.std.specs.Prelude.{◌≡◌, ◌∷◌, [], codes, false, true, ◌++◌};
ghost use Rattle.st_base.specs.declared.mode.Mode.TheVariants as modes;
ghost use Rattle.st_base.specs.declared.names.NameAsk.TheVariants as names;
ghost use Rattle.st_messages.specs.declared.answer.AppAnswer.TheVariants as answers;
ghost use Rattle.st_messages.specs.declared.ask.Ask.TheVariants as asks;
ghost use Rattle.st_messages.specs.declared.event.Event.TheVariants as events;
ghost use Rattle.st_messages.specs.declared.message.Body.TheVariants as bodies;
ghost use Rattle.st_messages.specs.declared.message.NameOp.TheVariants as ops;
ghost use Rattle.st_messages.specs.declared.message.NameReply.TheVariants as replies;
ghost use Rattle.st_messages.specs.declared.message.Why.TheVariants as why;
ghost use Rattle.st_rules.specs.Report as text;
ghost use Rattle.st_rules.specs.Run.{run};
ghost use Rattle.st_rules.specs.declared.observation.Observation.TheVariants as seen;
ghost use Rattle.st_rules.specs.declared.observation.WorldRefusal.TheVariants as refusals;
ghost use Rattle.st_rows.specs.ClientWords.{lost_row, on, server};
ghost use Rattle.st_rows.specs.Words.{c, entry, extent, g, page, stamp};
ghost use Rattle.st_rows_world.specs.WorldWords.{answered, ask, client_node, cut, dropped, failed, leased, lost, patched, read_out, sent, server_node, stolen, suspected, world_of, write_out, wrote};

/// What clients send.
#[tactic(auto, unfolding(crate::specs::CheckWords::texts_open))]
pub fn requests()
    ensures hello { text.observation (sent 12 1 32769 2 3 4 567 bodies.Hello) ≡ codes " send 12 c1 s1 hello 2 3 4 567" }
    ensures keep_alive { text.observation (sent 12 1 32769 2 3 4 567 bodies.KeepAlive) ≡ codes " send 12 c1 s1 keepalive 2 3 4 567" }
    ensures acquire { text.observation (sent 12 1 32769 2 3 4 567 (bodies.Acquire 2 modes.S)) ≡ codes " send 12 c1 s1 acquire 2 3 4 567 2 1" }
    ensures released { text.observation (sent 12 1 32769 2 3 4 567 (bodies.Released 2 (g 4294967303) modes.None))
        ≡ codes " send 12 c1 s1 released 2 3 4 567 2 4294967303 0" }
    ensures map { text.observation (sent 12 1 32769 2 3 4 567 (bodies.Map 2 (g 4294967303) (page 9))) ≡ codes " send 12 c1 s1 map 2 3 4 567 2 4294967303 9" }
    ensures allocate { text.observation (sent 12 1 32769 2 3 4 567 (bodies.Allocate 2 (g 4294967303) (page 9) 64))
        ≡ codes " send 12 c1 s1 allocate 2 3 4 567 2 4294967303 9 64" }
    ensures cut { text.observation (sent 12 1 32769 2 3 4 567 (bodies.Cut 2 (g 4294967303) (page 9))) ≡ codes " send 12 c1 s1 cut 2 3 4 567 2 4294967303 9" }
    ensures reassert { text.observation (sent 12 1 32769 2 3 4 567 (bodies.Reassert ((2, g 4294967303, modes.S) ∷ (31, g 4294967304, modes.X) ∷ [])))
        ≡ codes " send 12 c1 s1 reassert 2 3 4 567 2 2 4294967303 1 31 4294967304 2" }
    ensures no_locks { text.observation (sent 12 1 32769 2 3 4 567 (bodies.Reassert [])) ≡ codes " send 12 c1 s1 reassert 2 3 4 567 0" }
    ensures demand_seen { text.observation (sent 12 1 32769 2 3 4 567 (bodies.DemandSeen 2 (g 4294967303)))
        ≡ codes " send 12 c1 s1 demandseen 2 3 4 567 2 4294967303" }
    ensures lookup { text.observation (sent 12 1 32769 2 3 4 567 (bodies.Name (ops.Lookup 1 (codes "f2")))) ≡ codes " send 12 c1 s1 name 2 3 4 567 1 1 f2" }
    ensures create { text.observation (sent 12 1 32769 2 3 4 567 (bodies.Name (ops.Create 1 (codes "f2")))) ≡ codes " send 12 c1 s1 name 2 3 4 567 2 1 f2" }
    ensures mkdir { text.observation (sent 12 1 32769 2 3 4 567 (bodies.Name (ops.Mkdir 1 (codes "f2")))) ≡ codes " send 12 c1 s1 name 2 3 4 567 3 1 f2" }
    ensures remove { text.observation (sent 12 1 32769 2 3 4 567 (bodies.Name (ops.Remove 1 (codes "f2") (g 4294967303))))
        ≡ codes " send 12 c1 s1 name 2 3 4 567 4 1 f2 4294967303" }
    ensures rename { text.observation (sent 12 1 32769 2 3 4 567 (bodies.Name (ops.Rename 1 (codes "f2") 10 (codes "g"))))
        ≡ codes " send 12 c1 s1 name 2 3 4 567 5 1 f2 10 g" }
    ensures list_all { text.observation (sent 12 1 32769 2 3 4 567 (bodies.Name (ops.List 1 (codes "")))) ≡ codes " send 12 c1 s1 name 2 3 4 567 6 1 -" }
    ensures list_above { text.observation (sent 12 1 32769 2 3 4 567 (bodies.Name (ops.List 1 (codes "f2")))) ≡ codes " send 12 c1 s1 name 2 3 4 567 6 1 f2" }
{}

/// What servers send.
#[tactic(auto, unfolding(crate::specs::CheckWords::texts_open))]
pub fn replies()
    ensures welcome { text.observation (sent 1 32770 16 2 3 4 567 bodies.Welcome) ≡ codes " send 1 s2 c16 welcome 2 3 4 567" }
    ensures ack { text.observation (sent 1 32770 16 2 3 4 567 bodies.Ack) ≡ codes " send 1 s2 c16 ack 2 3 4 567" }
    ensures nack_1 { text.observation (sent 1 32770 16 2 3 4 567 (bodies.Nack why.Suspect 5 6)) ≡ codes " send 1 s2 c16 nack 2 3 4 567 1 5 6" }
    ensures nack_2 { text.observation (sent 1 32770 16 2 3 4 567 (bodies.Nack why.NoSession 5 6)) ≡ codes " send 1 s2 c16 nack 2 3 4 567 2 5 6" }
    ensures nack_3 { text.observation (sent 1 32770 16 2 3 4 567 (bodies.Nack why.OtherEpoch 5 6)) ≡ codes " send 1 s2 c16 nack 2 3 4 567 3 5 6" }
    ensures nack_4 { text.observation (sent 1 32770 16 2 3 4 567 (bodies.Nack why.Grace 5 6)) ≡ codes " send 1 s2 c16 nack 2 3 4 567 4 5 6" }
    ensures nack_5 { text.observation (sent 1 32770 16 2 3 4 567 (bodies.Nack why.GraceOver 5 6)) ≡ codes " send 1 s2 c16 nack 2 3 4 567 5 5 6" }
    ensures nack_6 { text.observation (sent 1 32770 16 2 3 4 567 (bodies.Nack why.Conflict 5 6)) ≡ codes " send 1 s2 c16 nack 2 3 4 567 6 5 6" }
    ensures nack_7 { text.observation (sent 1 32770 16 2 3 4 567 (bodies.Nack why.NotHolder 5 6)) ≡ codes " send 1 s2 c16 nack 2 3 4 567 7 5 6" }
    ensures nack_8 { text.observation (sent 1 32770 16 2 3 4 567 (bodies.Nack why.NoFile 5 6)) ≡ codes " send 1 s2 c16 nack 2 3 4 567 8 5 6" }
    ensures nack_9 { text.observation (sent 1 32770 16 2 3 4 567 (bodies.Nack why.NoSpace 5 6)) ≡ codes " send 1 s2 c16 nack 2 3 4 567 9 5 6" }
    ensures nack_10 { text.observation (sent 1 32770 16 2 3 4 567 (bodies.Nack why.TooManyLocks 5 6)) ≡ codes " send 1 s2 c16 nack 2 3 4 567 10 5 6" }
    ensures granted { text.observation (sent 1 32770 16 2 3 4 567 (bodies.Granted 2 (g 4294967303) modes.X))
        ≡ codes " send 1 s2 c16 granted 2 3 4 567 2 4294967303 2" }
    ensures queued { text.observation (sent 1 32770 16 2 3 4 567 (bodies.Queued 2 modes.S)) ≡ codes " send 1 s2 c16 queued 2 3 4 567 2 1" }
    ensures demand { text.observation (sent 1 32770 16 2 3 4 567 (bodies.Demand 2 (g 4294967303) modes.None))
        ≡ codes " send 1 s2 c16 demand 2 3 4 567 2 4294967303 0" }
    ensures demand_shared { text.observation (sent 1 32770 16 2 3 4 567 (bodies.Demand 2 (g 4294967303) modes.S))
        ≡ codes " send 1 s2 c16 demand 2 3 4 567 2 4294967303 1" }
    ensures extents { text.observation (sent 1 32770 16 2 3 4 567 (bodies.Extents 2 (extent 9 1 4095 3 ∷ extent 10 8 0 4 ∷ [])))
        ≡ codes " send 1 s2 c16 extents 2 3 4 567 2 2 9 1 4095 3 10 8 0 4" }
    ensures unmapped { text.observation (sent 1 32770 16 2 3 4 567 (bodies.Extents 2 [])) ≡ codes " send 1 s2 c16 extents 2 3 4 567 2 0" }
    ensures ino { text.observation (sent 1 32770 16 2 3 4 567 (bodies.Named (replies.Ino 12))) ≡ codes " send 1 s2 c16 named 2 3 4 567 0 12" }
    ensures listed { text.observation (sent 1 32770 16 2 3 4 567 (bodies.Named (replies.Listed (entry 11 false (codes "a")
        ∷ entry 2 true (codes "b.c") ∷ [])))) ≡ codes " send 1 s2 c16 named 2 3 4 567 1 2 11:1:a 2:2:b.c" }
    ensures refused { text.observation (sent 1 32770 16 2 3 4 567 (bodies.Named (replies.Refused 8))) ≡ codes " send 1 s2 c16 named 2 3 4 567 2 8" }
    ensures reasserted { text.observation (sent 1 32770 16 2 3 4 567 bodies.Reasserted) ≡ codes " send 1 s2 c16 reasserted 2 3 4 567" }
{}

/// What applications are answered.
#[tactic(auto, unfolding(crate::specs::CheckWords::texts_open))]
pub fn answers_to_applications()
    ensures written { text.observation (answered 2 19 answers.Written) ≡ codes " answer c2 19 written" }
    ensures read { text.observation (answered 2 19 (answers.Read (7 ∷ 7 ∷ 7 ∷ 0 ∷ 255 ∷ []))) ≡ codes " answer c2 19 read 3x7,1x0,1x255" }
    ensures hard { text.observation (answered 2 19 answers.Hard) ≡ codes " answer c2 19 hard" }
    ensures cut { text.observation (answered 2 19 answers.Cut) ≡ codes " answer c2 19 cut" }
    ensures named { text.observation (answered 2 19 (answers.Named 12)) ≡ codes " answer c2 19 named 12" }
    ensures listed { text.observation (answered 2 19 (answers.Listed (entry 11 false (codes "a") ∷ entry 2 true (codes "b.c") ∷ [])))
        ≡ codes " answer c2 19 listed 2 11:1:a 2:2:b.c" }
    ensures none_listed { text.observation (answered 2 19 (answers.Listed [])) ≡ codes " answer c2 19 listed 0" }
    ensures refused { text.observation (answered 2 19 (answers.Refused 6)) ≡ codes " answer c2 19 refused 6" }
    ensures quiesced { text.observation (answered 2 19 answers.Quiesced) ≡ codes " answer c2 19 quiesced" }
    ensures no_file { text.observation (answered 2 19 answers.NoFile) ≡ codes " answer c2 19 nofile" }
    ensures no_space { text.observation (answered 2 19 (answers.NoSpace 0 3)) ≡ codes " answer c2 19 nospace 0 3" }
    ensures disk_fault { text.observation (answered 2 19 (answers.DiskFault 5)) ≡ codes " answer c2 19 diskfault 5" }
    ensures ops_full { text.observation (answered 2 19 answers.OpsFull) ≡ codes " answer c2 19 opsfull" }
    ensures uncertain { text.observation (answered 2 19 (answers.Uncertain 1 2)) ≡ codes " answer c2 19 uncertain 1 2" }
    ensures lost { text.observation (answered 2 19 (answers.Lost (lost_row 0 3 ∷ lost_row 7 0 ∷ []))) ≡ codes " answer c2 19 lost 2 0:3 7:0" }
    ensures dirty_full { text.observation (answered 2 19 answers.DirtyFull) ≡ codes " answer c2 19 dirtyfull" }
    ensures not_holder { text.observation (answered 2 19 answers.NotHolder) ≡ codes " answer c2 19 notholder" }
    ensures too_many_locks { text.observation (answered 2 19 answers.TooManyLocks) ≡ codes " answer c2 19 toomanylocks" }
{}

/// Disk commands, the log, and notes.
#[tactic(auto, unfolding(crate::specs::CheckWords::texts_open))]
pub fn commands_entries_and_notes()
    ensures read_out { text.observation (read_out 3 2 1 2 40) ≡ codes " submit 3 c2 1 2 40 r" }
    ensures write_out { text.observation (write_out 3 2 1 2 40 2 31 9 5 (7 ∷ 7 ∷ 7 ∷ 0 ∷ 255 ∷ [])) ≡ codes " submit 3 c2 1 2 40 w 31 9 5 3x7,1x0,1x255" }
    ensures wrote { text.observation (wrote 4 1 2 31 9 (7 ∷ 7 ∷ 7 ∷ 0 ∷ 255 ∷ [])) ≡ codes " write 4 c1 2:31 9 3x7,1x0,1x255" }
    ensures patched { text.observation (patched 5 1 2 31 9 4000 (1 ∷ 1 ∷ [])) ≡ codes " patch 5 c1 2:31 9 4000 2x1" }
    ensures cut { text.observation (cut 6 2 31 9) ≡ codes " cut 6 2:31 9" }
    ensures hard { text.observation (seen.Hardened 7) ≡ codes " hard 7" }
    ensures crash { text.observation (dropped 8) ≡ codes " drop 8 crash" }
    ensures failed { text.observation (failed 9 10) ≡ codes " drop 9 failed 10" }
    ensures leased { text.observation (leased 1 2 2000) ≡ codes " lease c1 s2 2000" }
    ensures lost { text.observation (lost 1 2 3) ≡ codes " lost c1 s2 3" }
    ensures suspected { text.observation (suspected 2 1 1100) ≡ codes " suspect s2 c1 1100" }
    ensures stolen { text.observation (stolen 2 1 3) ≡ codes " steal s2 c1 3" }
{}

/// Refusals, with their values.
#[tactic(auto, unfolding(crate::specs::CheckWords::texts_open))]
pub fn refusals_of_events()
    ensures no_node { text.refusal (refusals.NoNode (client_node 9)) ≡ codes " NoNode c9" }
    ensures not_running { text.refusal (refusals.NotRunning (server_node 1)) ≡ codes " NotRunning s1" }
    ensures running { text.refusal (refusals.Running (client_node 2)) ≡ codes " Running c2" }
    ensures no_message { text.refusal (refusals.NoMessage 8) ≡ codes " NoMessage 8" }
    ensures lost_message { text.refusal (refusals.LostMessage 8) ≡ codes " LostMessage 8" }
    ensures link_cut { text.refusal (refusals.LinkCut (client_node 1) (server_node 2)) ≡ codes " LinkCut c1 s2" }
    ensures no_command { text.refusal (refusals.NoCommand 8) ≡ codes " NoCommand 8" }
    ensures disk_state { text.refusal (refusals.DiskState 8) ≡ codes " DiskState 8" }
    ensures clock_rate { text.refusal (refusals.ClockRate 102 100) ≡ codes " ClockRate 102 100" }
    ensures late_disk { text.refusal (refusals.LateDisk (stamp 1001) (stamp 1000)) ≡ codes " LateDisk 1001 1000" }
    ensures flush_missed { text.refusal (refusals.FlushMissed (c 1) (server 2)) ≡ codes " FlushMissed c1 s2" }
    ensures net_full { text.refusal (refusals.NetFull 536870912) ≡ codes " NetFull 536870912" }
    ensures clock_drift { text.refusal (refusals.ClockDrift (server_node 1) (client_node 2) 600) ≡ codes " ClockDrift s1 c2 600" }
{}

/// A report that ends with a refusal.
#[tactic(auto, unfolding(crate::specs::CheckWords::texts_open))]
pub fn a_refused_run()
    ensures { text.report (run (
        (ask 1 (asks.Read (on 1 2) (page 0)))
        ∷ (events.Cut (client_node 1) (server_node 1))
        ∷ (events.Cut (client_node 1) (server_node 1))
        ∷ (events.Heal (client_node 1) (server_node 1))
        ∷ (events.Heal (server_node 1) (client_node 1))
        ∷ (events.Deliver 1)
        ∷ (events.Cut (server_node 1) (client_node 1))
        ∷ (events.Deliver 1)
        ∷ (events.Deliver 2)
        ∷ []) (world_of 2 1 1 8))
        ≡ codes "tank report 1\n" ++ (codes "1 send 1 c1 s1 hello 1 0 0 0\n" ++ (codes "6 send 2 s1 c1 welcome 1 1 0 0\n"
        ++ (codes "8 send 3 s1 c1 welcome 1 1 0 0\n" ++ (codes "line 10 LinkCut s1 c1\n")))) }
{}

/// A report that ends with the counts.
#[tactic(auto, unfolding(crate::specs::CheckWords::texts_open))]
pub fn a_whole_run()
    ensures { text.report (run (
        (ask 1 (asks.Name (server 1) (names.Create 1 (codes "f2"))))
        ∷ (events.Deliver 1)
        ∷ (events.Deliver 2)
        ∷ (events.Deliver 3)
        ∷ (events.Deliver 4)
        ∷ []) (world_of 2 1 1 8))
        ≡ codes "tank report 1\n" ++ (codes "1 send 1 c1 s1 hello 1 0 0 0\n" ++ (codes "2 send 2 s1 c1 welcome 1 1 0 0\n"
        ++ (codes "3 lease c1 s1 1000\n" ++ (codes "3 send 3 c1 s1 name 1 1 1 0 2 1 f2\n" ++ (codes "4 send 4 s1 c1 named 1 1 1 0 2 2\n"
        ++ (codes "5 answer c1 1 refused 2\n" ++ (codes "end events 5 sent 4 commands 0 writes 0 reads 0 hard 0 gone 0 stolen 0\n"))))))) }
{}
