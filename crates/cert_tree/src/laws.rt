// What holds of every list of nodes: laws of the definitions, with no code.
ghost use Rattle.std.specs.Prelude.{◌≡◌, ◌≤◌, List, length};
ghost use Rattle.rail_model.specs.declared.types.Node.{Node as NodeValue};
ghost use Rattle.rail_model.specs.Certificate.{Tree, preorder};
ghost use Rattle.cert_tree.specs.declared.reading.CertRefused.{CertRefused as Refusal};
ghost use Rattle.cert_tree.specs.Refused.{IsRefused};
ghost use Rattle.cert_tree.specs.Spelling.{most_nodes};

/// Two trees never have one preorder.
pub fn each_list_spells_one_tree()
    ensures { (c d : Tree) → preorder c ≡ preorder d → c ≡ d }
{}

/// A list that is refused spells no certificate, and it is refused for one cause.
pub fn each_list_has_one_verdict()
    ensures not_both { (nodes : List NodeValue) (e : Refusal) (t : Tree)
        → IsRefused nodes e → preorder t ≡ nodes → length nodes ≤ most_nodes → ⊥ }
    ensures one { (nodes : List NodeValue) (e f : Refusal)
        → IsRefused nodes e → IsRefused nodes f → e ≡ f }
{}
