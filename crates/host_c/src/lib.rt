// The library that a host in another language links: `rt lib` here writes out/libhost_c.a. Each function is the one of its name in `host`,
// and says the same; include/quernhem.h has the declarations in C.
#![tactic(auto)]

mod boxes;
mod indexing;
mod receiving;
