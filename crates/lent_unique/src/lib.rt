// No code: that the contracts of firmware_lent leave nothing open. It stands by itself, since an edit there costs a check of its crate.

#![tactic(auto)]
