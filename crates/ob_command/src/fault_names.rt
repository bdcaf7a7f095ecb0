//! The names of the faults that have a page. Made by tools/fault_pages from docs/FAULTS.md.

/// The faults by their names.
pub const FAULT_NAMES: &[&str] = &[
    "trap 1", "trap 2", "trap 3", "trap 4", "trap 5", "NoMemory", "S1", "S2", "S3", "S4", "S5",
    "P1", "P2", "P3", "C1", "C2", "C3", "C4", "C5", "C6", "C7", "C8", "C9", "C10", "G1", "O2",
    "M1", "M2", "L1", "L4", "L2", "L3", "N1", "N3", "Q1", "Q2", "Q3", "I1", "I2", "V1", "V2", "V3",
    "K1", "K2", "K3", "K5", "F1", "H1", "H2", "H3", "H4", "X1", "X2", "X4", "X3", "X5",
];
