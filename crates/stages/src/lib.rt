// How far the check of a text has come on a desk, from load to verdict, and what an advance is due to answer. No code.
#![tactic(auto)]
