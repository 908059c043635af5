// The grammar of manifests: what is read off a row of tokens, step by step, and the law that says which texts say which manifest.
#![tactic(auto)]

ghost use Rattle.grammar.specs.Grammar.{ReadExactly};

// A text is read as a manifest exactly where its tokens are a row of declarations and chains that says it and keeps the rules.
pub fn read_exactly()
    ensures { ReadExactly }
{}
