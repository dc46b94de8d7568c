//! Worked templates that are theorems: each clause below is computed from the definitions.
ghost use Rattle.std.specs.Prelude.{◌≡◌, ◌∷◌, ◌++◌, [], codes, Some, None, true, false, replicate};
ghost use Rattle.template_trees.specs.declared.tree.Element.{Element};
ghost use Rattle.template_trees.specs.declared.tree.Item.{Item};
ghost use Rattle.template_trees.specs.declared.tree.Node.{Node};
ghost use Rattle.template_trees.specs.declared.tree.Part.{Part};
ghost use Rattle.template_trees.specs.declared.tree.PostTag.{PostTag};
ghost use Rattle.template_trees.specs.declared.tree.Tag.{Tag};
ghost use Rattle.template_trees.specs.Trees.{default_index, hook_named, fits};
ghost use Rattle.template_trees.specs.Worked.{template_in, tree_of_nodes, no_tree, plain};

/// States which templates some texts are. The call itself does nothing: it carries these facts.
pub fn worked_templates()
    ensures default { template_in (codes "index")
        (codes "[{\"tag\":\"wp_head\"},{\"loop\":[\"<h2>\",{\"tag\":\"the_title\"},\"</h2>\","
        ++ codes "{\"tag\":\"the_content\"}],\"else\":[\"<p>Nothing found.</p>\"]},{\"tag\":\"wp_footer\"}]")
        ≡ tree_of_nodes default_index }
    ensures no_nodes { template_in (codes "404") (codes "[]") ≡ tree_of_nodes [] }
    ensures front_page { template_in (codes "front-page") (codes "[]") ≡ tree_of_nodes [] }

    // A part holds texts, tags and actions.
    ensures part { template_in (codes "header")
        (codes "[\"H\",{\"tag\":\"post_date\"},{\"action\":\"mine\"}]")
        ≡ tree_of_nodes (plain (Item.Text (codes "H"))
        ∷ plain (Item.Tag (Tag.OfPost PostTag.PostDate))
        ∷ plain (Item.Action (codes "mine")) ∷ []) }
    ensures part_in_a_page { template_in (codes "page") (codes "[{\"part\":\"header\"}]")
        ≡ tree_of_nodes (Node.Element (Element.Part Part.Header) ∷ []) }
    ensures part_in_a_part { template_in (codes "header") (codes "[{\"part\":\"footer\"}]")
        ≡ no_tree }
    ensures loop_in_a_part { template_in (codes "content") (codes "[{\"loop\":[]}]") ≡ no_tree }

    // The order of keys doesn't count.
    ensures loops { template_in (codes "single")
        (codes "[{\"loop\":[{\"part\":\"content\"}]},{\"else\":[\"E\"],\"loop\":[]}]")
        ≡ tree_of_nodes (Node.Loop (Element.Part Part.Content ∷ []) []
        ∷ Node.Loop [] (Element.Item (Item.Text (codes "E")) ∷ []) ∷ []) }
    ensures loop_in_a_loop { template_in (codes "single") (codes "[{\"loop\":[{\"loop\":[]}]}]")
        ≡ no_tree }
    ensures loop_in_an_else { template_in (codes "single")
        (codes "[{\"loop\":[],\"else\":[{\"loop\":[]}]}]")
        ≡ no_tree }
    ensures null_else { template_in (codes "single") (codes "[{\"loop\":[],\"else\":null}]")
        ≡ no_tree }
    ensures else_alone { template_in (codes "single") (codes "[{\"else\":[]}]") ≡ no_tree }
    ensures third_key { template_in (codes "single")
        (codes "[{\"loop\":[],\"else\":[],\"tag\":\"the_ID\"}]")
        ≡ no_tree }
    ensures other_key { template_in (codes "single") (codes "[{\"loop\":[],\"tag\":\"the_ID\"}]")
        ≡ no_tree }
    ensures second_key { template_in (codes "single") (codes "[{\"tag\":\"the_ID\",\"text\":\"\"}]")
        ≡ no_tree }
    ensures no_key { template_in (codes "single") (codes "[{}]") ≡ no_tree }
    ensures unknown_tag { template_in (codes "single") (codes "[{\"tag\":\"the_id\"}]") ≡ no_tree }
    ensures unknown_part { template_in (codes "single") (codes "[{\"part\":\"sidebar\"}]")
        ≡ no_tree }
    ensures number { template_in (codes "single") (codes "[1]") ≡ no_tree }
    ensures no_list { template_in (codes "single") (codes "{\"tag\":\"the_ID\"}") ≡ no_tree }
    ensures null_body { template_in (codes "single") (codes "null") ≡ no_tree }
    ensures unknown_name { template_in (codes "sidebar") (codes "[]") ≡ no_tree }

    // The name of an action has 1 to 64 bytes.
    ensures no_action { template_in (codes "single") (codes "[{\"action\":\"\"}]") ≡ no_tree }
    ensures longest_action { hook_named (replicate 64 97) ≡ Some (replicate 64 97) }
    ensures longer_action { hook_named (replicate 65 97) ≡ None }

    // At most 4,096 nodes, including those in loops; the name of an action isn't a text.
    ensures most_nodes { fits (replicate 4096 (plain (Item.Tag Tag.WpHead))) ≡ true }
    ensures too_many_nodes { fits (replicate 4097 (plain (Item.Tag Tag.WpHead))) ≡ false }
    ensures most_in_a_loop { fits (Node.Loop (replicate 4000 (Element.Part Part.Header))
        (replicate 95 (Element.Part Part.Header)) ∷ []) ≡ true }
    ensures too_many_in_a_loop { fits (Node.Loop (replicate 4000 (Element.Part Part.Header))
        (replicate 96 (Element.Part Part.Header)) ∷ []) ≡ false }
    ensures most_bytes { fits (plain (Item.Text (replicate 262143 97)) ∷ Node.Loop []
        (Element.Item (Item.Text (replicate 1 97)) ∷ Element.Item (Item.Action (codes "a")) ∷ [])
        ∷ []) ≡ true }
    ensures too_many_bytes { fits (plain (Item.Text (replicate 262143 97)) ∷ Node.Loop []
        (Element.Item (Item.Text (replicate 2 97)) ∷ []) ∷ []) ≡ false }
{}
