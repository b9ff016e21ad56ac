// The theorems about every list of desk calls and every one-call check: demands 1, 2 and 3. No code.
#![tactic(auto)]
