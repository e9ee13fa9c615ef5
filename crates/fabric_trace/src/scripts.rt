//! What a script that passes gives to a fabric. The calls do nothing: their clauses are the laws.

ghost use Rattle.std.specs.Prelude.{◌≡◌, ℕ, true, List, ◌∷◌, ◌++◌, All};
ghost use Rattle.fabric_script.specs.declared.lines.Numbered.{Numbered};
ghost use Rattle.fabric_script.specs.Lines.{is_event};
ghost use Rattle.fabric_script.specs.Scripts.{ScriptPasses};
ghost use Rattle.fabric_model.specs.Laws.Nodes.{JoinsNodes};
ghost use Rattle.fabric_trace.specs.Events.{ArePorts, MayHappen, port_counts};
ghost use Rattle.fabric_trace.specs.Runs.{bare, set_up_all};
ghost use Rattle.fabric_trace.specs.SetUps.{MaySetUpAll};

/// Each line of set-up of a script that passes may stand behind those before it.
pub fn scripts_may_set_up()
    ensures { (names : List (List ℕ)) (lines : List Numbered) → ScriptPasses names lines
        → MaySetUpAll bare lines }
{}

/// Each event of a script that passes may happen in the network that the script sets up.
pub fn events_may_happen()
    ensures { (names : List (List ℕ)) (lines : List Numbered) → ScriptPasses names lines
        → All (λ line. is_event line.line ≡ true
        → MayHappen names (set_up_all bare lines) line.line) lines }
{}

/// Each port that a line of a script that passes names is one of a node of an earlier line.
pub fn ports_are_there()
    ensures { (names : List (List ℕ)) (before behind : List Numbered) (line : Numbered)
        → ScriptPasses names (before ++ line ∷ behind) → ArePorts (port_counts before) line.line }
{}

/// The links of a script that passes join ports of nodes, and each endpoint has its port.
pub fn scripts_join_nodes()
    ensures { (names : List (List ℕ)) (lines : List Numbered) → ScriptPasses names lines
        → JoinsNodes (set_up_all bare lines) }
{}
