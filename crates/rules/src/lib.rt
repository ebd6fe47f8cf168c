// Scripts: what they are, the check of one as a definition, the rules of layout and keys, and that the two agree.
#![tactic(auto)]

ghost use Rattle.rules.specs.Examples.{Examples};
ghost use Rattle.rules.specs.Keys.{CheckDecides};

// Over a book that passes, the check passes the scripts that are laid out and derived, and no others.
pub fn check_decides()
    ensures { CheckDecides }
{}

// The worked examples hold of the definitions: each refusal of a script, and scripts that pass.
pub fn examples_hold()
    ensures { Examples }
{}
