#![tactic(auto)]
// Theorems over chip, and no code: the owner's demands, the bench cases, the story, the laws of a run that is cut, and what a second
// program changes. They stand apart from chip so that its proof stays short.
