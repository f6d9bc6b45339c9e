//! What a token's offsets say of the whole sentence, in `specs/`: they count the characters before it, and the bytes and the UTF-16
//! code units that these take. There is no code here; the theorem is about the definitions of the cuts.
#![tactic(auto)]
