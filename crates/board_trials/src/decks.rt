// Decks written by hand. A contract is given with its points, and its trainee's lot where points are equal.

// Deck P of the rules: three groups, three trainees with two wishes each. Dredgers are HERON (0) and TERN (2).
pub const P: &[u8] = b"G\xff\x02\0HERON   \
    G\0\x01\0ENGINE  \
    G\xff\x01\0TERN    \
    T\x03\0\0ADA     \
    W\x01\x32\0\0\
    W\x02\x46\0\0\
    T\x01\0\x01BEN     \
    W\x01\x3c\0\0\
    W\x02\x28\0\0\
    T\x02\0\0CAI     \
    W\x02\x3c\0\0\
    W\0\x1e\0\0\
    E\x06\0";

// P with two seats at HERON, the first with rule 1, the second with rule 0.
pub const P_SEATED: &[u8] = b"G\xff\x02\0HERON   \
    G\0\x01\0ENGINE  \
    G\xff\x01\0TERN    \
    S\0\x01\
    S\0\0\
    T\x03\0\0ADA     \
    W\x01\x32\0\0\
    W\x02\x46\0\0\
    T\x01\0\x01BEN     \
    W\x01\x3c\0\0\
    W\x02\x28\0\0\
    T\x02\0\0CAI     \
    W\x02\x3c\0\0\
    W\0\x1e\0\0\
    E\x06\0";

// P with a reserve of 1 at HERON.
pub const P_RESERVED: &[u8] = b"G\xff\x02\0HERON   \
    G\0\x01\0ENGINE  \
    G\xff\x01\0TERN    \
    R\0\x01\0\
    T\x03\0\0ADA     \
    W\x01\x32\0\0\
    W\x02\x46\0\0\
    T\x01\0\x01BEN     \
    W\x01\x3c\0\0\
    W\x02\x28\0\0\
    T\x02\0\0CAI     \
    W\x02\x3c\0\0\
    W\0\x1e\0\0\
    E\x06\0";

// P with BEN barred at HERON.
pub const P_BARRED: &[u8] = b"G\xff\x02\0HERON   \
    G\0\x01\0ENGINE  \
    G\xff\x01\0TERN    \
    T\x03\0\0ADA     \
    W\x01\x32\0\0\
    W\x02\x46\0\0\
    T\x01\0\x01BEN     \
    W\x01\x3c\0\0\
    W\x02\x28\0\0\
    B\0\
    T\x02\0\0CAI     \
    W\x02\x3c\0\0\
    W\0\x1e\0\0\
    E\x06\0";

// Two reserved places at HERON (0), five at TERN (2); BEN is barred at TERN and EVA at HERON. All but CAI are flagged.
// At HERON: 0 (50, lot 5), 2 (50, lot 3), 4 (90, CAI), 6 (40), 8 (60, EVA). At TERN: 1 (10), 3 (99, BEN), 5 (20, CAI), 7 (30).
pub const R: &[u8] = b"G\xff\x02\0HERON   \
    G\0\x01\0ENGINE  \
    G\xff\x01\0TERN    \
    R\0\x02\0\
    R\x02\x05\0\
    T\x05\0\x01ADA     \
    W\0\x32\0\0\
    W\x02\x0a\0\0\
    T\x03\0\x01BEN     \
    W\x01\x32\0\0\
    W\x02\x63\0\0\
    B\x02\
    T\x01\0\0CAI     \
    W\0\x5a\0\0\
    W\x02\x14\0\0\
    T\x02\0\x01DOT     \
    W\0\x28\0\0\
    W\x02\x1e\0\0\
    T\x04\0\x01EVA     \
    B\0\
    W\x01\x3c\0\0\
    E\x09\0";

// HERON with cap 1, and in it ENGINE with cap 2 and three contracts: 0 (90), 1 (80), 2 (70).
pub const NARROW: &[u8] = b"G\xff\x01\0HERON   \
    G\0\x02\0ENGINE  \
    T\0\0\0ADA     \
    W\x01\x5a\0\0\
    T\x01\0\0BEN     \
    W\x01\x50\0\0\
    T\x02\0\0CAI     \
    W\x01\x46\0\0\
    E\x03\0";

// HERON (0, cap 3) has DECK (1, cap 2), which has ENGINE (2, cap 1); HERON also has GALLEY (3, cap 65,535). TERN (4) has cap 0, WREN (5) 65,535.
// By rank at HERON: 6 in GALLEY (50, lot 1), 3 in ENGINE (50, lot 2), 5 in DECK (50, lot 3), 0 in ENGINE (50, lot 4), 7 in HERON itself (40, lot 0),
// 8 in DECK (40, lot 5). 1 is at TERN; 2 and 4 (0 points) and 9 (65,535) are at WREN.
pub const DEEP: &[u8] = b"G\xff\x03\0HERON   \
    G\0\x02\0DECK    \
    G\x01\x01\0ENGINE  \
    G\0\xff\xffGALLEY  \
    G\xff\0\0TERN    \
    G\xff\xff\xffWREN    \
    T\x04\0\0ADA     \
    W\x02\x32\0\0\
    W\x04\x5a\0\0\
    W\x05\0\0\0\
    T\x02\0\0BEN     \
    W\x02\x32\0\0\
    W\x05\0\0\0\
    T\x03\0\0CAI     \
    W\x01\x32\0\0\
    T\x01\0\0DOT     \
    W\x03\x32\0\0\
    T\0\0\0EVA     \
    W\0\x28\0\0\
    T\x05\0\0FAY     \
    W\x01\x28\0\0\
    W\x05\xff\xff\0\
    E\x0a\0";

// Three seats at HERON (0), by rules 2, 1 and 0, and three at TERN (1) between them; none at WREN (2). The caps say otherwise.
// At HERON: 0 (90, term 5, lot 4), 2 (80, term 3, lot 2), 4 (10, term 9, lot 1), 5 (70, term 3, lot 3), 7 (5, term 4, lot 0). At TERN 1 and 6, at WREN 3.
pub const SEATED: &[u8] = b"G\xff\0\0HERON   \
    G\xff\0\0TERN    \
    G\xff\x09\0WREN    \
    S\0\x02\
    S\x01\0\
    S\0\x01\
    S\x01\0\
    S\0\0\
    S\x01\0\
    T\x04\0\0ADA     \
    W\0\x5a\0\x05\
    W\x01\x0a\0\0\
    T\x02\0\0BEN     \
    W\0\x50\0\x03\
    W\x02\x63\0\0\
    T\x01\0\0CAI     \
    W\0\x0a\0\x09\
    T\x03\0\0DOT     \
    W\0\x46\0\x03\
    W\x01\x0a\0\0\
    T\0\0\0EVA     \
    W\0\x05\0\x04\
    E\x08\0";

// HERON (0, cap 1) has one seat with rule 0, TERN (1, cap 0) none; each has one reserved place. ADA is barred at HERON, all but CAI are flagged.
// At HERON: 0 (90, ADA), 2 (40), 4 (70, CAI), 6 (30). At TERN: 1 (50), 3 (60), 5 (80, CAI).
pub const PILED: &[u8] = b"G\xff\x01\0HERON   \
    G\xff\0\0TERN    \
    S\0\0\
    R\0\x01\0\
    R\x01\x01\0\
    T\0\0\x01ADA     \
    W\0\x5a\0\0\
    W\x01\x32\0\0\
    B\0\
    T\x01\0\x01BEN     \
    W\0\x28\0\0\
    W\x01\x3c\0\0\
    T\x02\0\0CAI     \
    W\0\x46\0\0\
    W\x01\x50\0\0\
    T\x03\0\x01DOT     \
    W\0\x1e\0\0\
    E\x07\0";
