#![tactic(auto)]
// No code: the steps of every conditional jump, MOVP, MOVP3 and JMPP at the edges of pages, by computation from the chip's definitions.
// They stand in a crate of their own because they take a while, and each must-fail edit of chip proves chip again.
