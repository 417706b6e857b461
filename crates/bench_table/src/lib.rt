// Document 01's bench table: definitions and the theorem, and no code. Its promise is `nonblocking::bench_table`.
#![tactic(auto)]
