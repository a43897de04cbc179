//! Written by tools/rows/wire_table.py: bytes in runs, `HH` or `HH*COUNT`, a word for a header that
//! many have, and the answers of an independent reading.

/// Messages that only version 3 has.
pub const MESSAGES: &str = "03 02 00 40 80 08 00*7 02 00*7 05 00*7 07 00*7 09\n\
03 21 80 08 00 40 00*7 02 00*7 05 00*7 07 00*7 09\n\
03 40 00*3 40 00*32\n\
03 40 00*2 80 08 00*32\n\
03 43 00 40 00*41 09 ff*6 00\n\
03 26 down 00*3 04 00 02 00*5 10 0f ff*3 00*7 01 00 0f ff*2 00 09 00*2 10 00 ff*8\n\
03 41 in 00*3 0b 07 00 01\n\
03 41 in 00*3 0b 07 ff*2\n\
03 42 out 00*3 0b 07\n\
03 42 out 00*3 0b 1b 00*3 01\n\
03 42 out 00*3 0b 1b ff*4";

/// Bytes that spell no message of version 3, and the refusal.
pub const FAULTS: &str = "03 = Short\n\
01*2 up = Version\n\
02 41 in 00*3 0b 06 = Version\n\
03 ff = Kind\n\
03 02 up 00 = Long\n\
03 02 00 41 80 02 00*7 02 00*7 05 00*7 07 00*7 09 = Value 2\n\
03 02 00 03 80 09 00*7 02 00*7 05 00*7 07 00*7 09 = Value 4\n\
03 09 up 10 01 = Value 38\n\
03 26 down 00*3 04 00 01 00*4 00 11 00*12 = Value 48\n\
03 26 down 00*3 04 00 01 00*4 00 10 10 00*11 = Value 50\n\
03 41 in 00*3 0b 08 = Value 42\n\
03 41 in 00*3 0b 07 00*2 = Value 43\n\
03 42 out 00*3 0b 08 = Value 42\n\
03 42 out 00*3 0b 1b 00*4 = Value 43\n\
03 42 out 00*3 0b 1c = Value 42\n\
03 00 = Kind\n\
03 28 down 00 = Long\n\
03 44 00*3 03 00*31 = Short\n\
03 22 03 02 00 03 00*7 02 00*7 05 00*4 01 00*11 = Value 2\n\
03 05 00 03*2 02 00*7 02 00*7 05 00*6 41 07 00*7 09 00*3 06 00*7 08 00 0f ff*2 00*3 = Value 4\n\
03 41 00*3 03*2 00*8 = Value 6\n\
03 42 00 03 00*13 9b 00*23 0b 00 = Value 14\n\
03 41 00*3 03 00*16 41 00*18 0b 05 00 02 01 00 80 00 01 06 61 20 6e 61 = Value 22\n\
03 42 00 03 00*29 06 00*7 0b 11 00*2 = Value 30\n\
03 08 up 10 00*3 09 06 61 20 6e 61 6d 65 00*7 08 = Value 38\n\
03 42 out 00*3 0b 80 00*3 01 = Value 42\n\
03 08 00 03 80 02 00*7 02 00*7 05 02 00*6 07 00*7 09 01 00*3 01 00*4 = Value 43\n\
03 44 in 00*7 09 10 = Value 46\n\
03 41 in 00*3 0b 06 00 02 00*3 4d ff 00*2 05 0f fe 00 02*3 = Value 49\n\
03 06 00 03 80 02 00*7 02 00*7 05 00 41 00*5 07 00*7 09 00*3 06 00*7 08 01 0f ff c0 00 40 = Value 50\n\
07 21 80 08 00 40 00*7 02 00*7 05 00*7 07 00*7 09 00*4 = Version";
