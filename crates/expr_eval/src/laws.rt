//! A law of keys.
ghost use Rattle.std.specs.Prelude.{◌≡◌, List};
ghost use Rattle.content.specs.Parts.{part_of};
ghost use Rattle.content.specs.Tree.{Tree};
ghost use Rattle.expr_eval.specs.Asked.{all_names_asked};
ghost use Rattle.expr_eval.specs.Keys.{keys_of};
ghost use Rattle.expr_parser.specs.Forms.{Form};

/// The keys of a content are those of its part that has just the fields that the expressions ask
/// for.
pub fn law_part()
    ensures { (forms : List Form) (t : Tree)
        → keys_of forms (part_of (all_names_asked forms) t) ≡ keys_of forms t }
{}
