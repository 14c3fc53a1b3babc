//! What a bank holds once a capsule is copied to its recovery area, or applied to its active image.
#![tactic(auto)]
