// Written by tools/rows/generate_rows.py.
ghost use Rattle.std.specs.Prelude.{◌≡◌, codes};
ghost use Rattle.st_generate.specs.GeneratedText.{generate_text, work_text};

/// The schedule of 0 events from 9, and what its run counts.
#[tactic(auto, unfolding(crate::specs::GeneratedWords::rows_open))]
pub fn no_event()
    ensures schedule { generate_text 0 9 ≡ codes "tank 1 1000 500 700 850 100 50 101 100 3 2 2 64\nend\n" }
    ensures counts { work_text 0 9 ≡ codes "end events 0 sent 0 commands 0 writes 0 reads 0 hard 0 gone 0 stolen 0\n" }
{}

/// The schedule of 40 events from 0, and what its run counts.
#[tactic(auto, unfolding(crate::specs::GeneratedWords::rows_open))]
pub fn seed_0()
    ensures schedule { generate_text 40 0 ≡ codes "tank 1 1000 500 700 850 100 50 101 100 3 2 2 64\napp c3 write 2:2 3 224\napp c1 write 2:4 3 35\nheal c3 s1\nadv 101 101 100 101 100\ndeliver 2\nadv 101 100 101 100 100\nadv 40\nadv 101 101 100 101 101\napp c1 write 1:9 1 137\ntick c1\ndeliver 3\ntick s2\nadv 39\napp c2 read 2:8 2\ntick c2\nlose 5\ndeliver 3\nlose 3\nadv 42\nadv 100 101 100 101 100\ndeliver 7\nadv 31\ndeliver 8\napp c2 read 2:6 2\ndeliver 2\ntick c1\ntick s2\ntick s1\ntick c2\ndeliver 11\ncut s1 s1\napp c2 write 1:4 1 122\ntick s2\nadv 101 100 101 100 100\nadv 10\nadv 101 101 101 101 100\napp c3 write 2:2 3 184\napp c1 sync 1:6\napp c3 write 1:3 1 53\ndeliver 14\nend\n" }
    ensures counts { work_text 40 0 ≡ codes "end events 40 sent 16 commands 0 writes 0 reads 0 hard 0 gone 0 stolen 0\n" }
{}

/// The schedule of 40 events from 7, and what its run counts.
#[tactic(auto, unfolding(crate::specs::GeneratedWords::rows_open))]
pub fn seed_7()
    ensures schedule { generate_text 40 7 ≡ codes "tank 1 1000 500 700 850 100 50 101 100 3 2 2 64\nheal s1 s1\ntick s2\napp c2 write 1:5 3 64\nadv 10\ntick c1\ntick c2\ntick s1\napp c1 sync 2:2\ndeliver 1\napp c2 read 1:7 2\ntick s2\napp c1 write 2:9 0 34\ndeliver 3\nadv 27\ndeliver 4\nheal s1 s2\nadv 37\ntick s1\ntick s1\napp c3 write 2:6 3 120\ntick c2\napp c3 sync 2:2\napp c2 sync 1:8\ndeliver 7\nadv 13\nadv 101 100 101 101 101\nadv 101 100 100 100 101\ntick c2\napp c3 read 2:5 3\ndeliver 7\ndeliver 9\ntick s1\ndeliver 6\nheal c2 c1\ndeliver 1\ncut c1 c1\nadv 15\nadv 101 100 101 101 101\nadv 101 101 101 101 100\ndeliver 13\nend\n" }
    ensures counts { work_text 40 7 ≡ codes "end events 40 sent 14 commands 0 writes 0 reads 0 hard 0 gone 0 stolen 0\n" }
{}

/// The schedule of 40 events from 9, and what its run counts.
#[tactic(auto, unfolding(crate::specs::GeneratedWords::rows_open))]
pub fn seed_9()
    ensures schedule { generate_text 40 9 ≡ codes "tank 1 1000 500 700 850 100 50 101 100 3 2 2 64\nadv 100 100 101 101 100\ntick s2\napp c3 read 2:6 2\ndeliver 1\nheal s2 s2\ntick c1\ntick s2\napp c3 read 2:4 1\ndeliver 2\ndeliver 3\napp c1 sync 1:3\nadv 52\ntick s1\napp c3 write 1:9 0 147\ntick c2\ndeliver 3\ntick s2\napp c1 read 2:9 0\napp c1 write 1:8 0 211\ndeliver 2\ncut c2 c2\nheal s2 s1\ncut c1 s1\napp c3 sync 1:7\ndeliver 4\ndeliver 5\nlose 8\ntick c2\nadv 45\ndeliver 7\nadv 41\ncrash s2\napp c1 sync 1:4\napp c3 write 2:3 1 120\nstart s2\napp c1 read 2:7 2\ndeliver 9\ntick c2\ndeliver 2\nadv 101 100 100 100 100\nend\n" }
    ensures counts { work_text 40 9 ≡ codes "end events 40 sent 12 commands 0 writes 0 reads 0 hard 0 gone 0 stolen 0\n" }
{}

/// The schedule of 40 events from 18446744073709551615, and what its run counts.
#[tactic(auto, unfolding(crate::specs::GeneratedWords::rows_open))]
pub fn last_seed()
    ensures schedule { generate_text 40 18446744073709551615 ≡ codes "tank 1 1000 500 700 850 100 50 101 100 3 2 2 64\napp c3 read 1:5 1\ndeliver 1\ntick c3\nadv 59\ncut c2 c3\ntick c3\nadv 100 101 101 101 101\napp c2 sync 1:8\ndeliver 3\napp c2 write 1:6 0 175\nadv 36\ndeliver 3\ndeliver 1\ndeliver 5\napp c1 sync 1:9\ndeliver 1\nheal c2 c3\ndeliver 1\ntick c3\ntick s1\napp c3 sync 1:9\nadv 54\ntick s1\ntick s1\nadv 16\nlose 11\ndeliver 10\napp c2 read 1:6 1\napp c3 read 2:4 0\ndeliver 5\nadv 54\ndeliver 4\napp c1 write 2:9 1 43\ntick s2\napp c1 read 1:2 0\ntick s2\ntick s1\nadv 5\ndeliver 8\ntick c2\nend\n" }
    ensures counts { work_text 40 18446744073709551615 ≡ codes "end events 40 sent 17 commands 0 writes 0 reads 0 hard 0 gone 0 stolen 0\n" }
{}
