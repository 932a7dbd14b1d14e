// Recordings in pieces (document 02, L12), as definitions and claims over the rules. No code is here:
// specs/Stream.antt says what a stream prints, specs/Turn.antt what one call of the feeding function does.
#![tactic(auto)]
