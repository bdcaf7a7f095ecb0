//! What plain words ask for. What a function here ensures is proved; it does nothing.

ghost use Rattle.std.specs.Prelude.{◌≡◌, ◌⊎◌, ℕ, List, Option, Some, [], ◌∷◌, false, true, All, codes, is_some, unwrap_or};
ghost use Rattle.clap.specs.Words.{fault_of};
ghost use Rattle.ob_command_line.specs.ClapCommand.{obl0_app};
ghost use Rattle.ob_command.specs.CommandLine.{Bound, Check, Draw, DrawHistory, DrawRecord, Explain, ExplainAlways, ExplainCalls, ExplainFault};
ghost use Rattle.ob_command.specs.CommandLine.{ExplainHistory, ExplainRecord, ExplainRecordTraps, ExplainRun, ExplainTraps, Help};
ghost use Rattle.ob_command.specs.CommandLine.{Listing, Live, Order, Outcomes, Run, RunByChance, RunFinished, RunSteps, RunTree, Seq, State};
ghost use Rattle.ob_command.specs.CommandLine.{Serve, Text, Unclear, Verify};
ghost use Rattle.ob_command.specs.CommandLine.{Version, asks_command, form_mistake_of, is_option, most_mistake, names_fault, parts_mistake};
ghost use Rattle.ob_command_line.specs.HelpWords.{command_names};
ghost use Rattle.ob_command.specs.CommandLine.{place_mistake, range_by, request, seen_budget_mistake, whole_mistake};
ghost use Rattle.ob_command_laws.specs.PlainForms.{AreInRange, AsksWithHistory, AsksWithModule, AsksWithSchedule, AsksWithScript, Has, IsHelpAsked};
ghost use Rattle.ob_command_laws.specs.PlainForms.{IsLength, IsMost, IsPlace, IsSeenBudget, IsVersionAsked, Lacks, ModuleAsksFor, NamesBesideWhole, OtherAsksFor};
ghost use Rattle.ob_command_laws.specs.PlainForms.{RunAsksFor, SaysSearch, ScriptAsksFor};
ghost use Rattle.ob_command_laws.specs.PlainForms.{ScriptSays, always_with, argument_in, bound_options, calls_with, chance_with, count_in, draw_options};
ghost use Rattle.ob_command_laws.specs.PlainForms.{explain_options, live_options, order_options, order_with, outcomes_options, outcomes_with, product_in, run_options};
ghost use Rattle.ob_command_laws.specs.PlainForms.{seed_in, seen_with, seq_options, seq_with, serve_options, state_options};
ghost use Rattle.ob_command_laws.specs.PlainForms.{turns_in, value_in};
ghost use Rattle.ob_command.specs.declared.command.CallNumbers.{CallNumbers};
ghost use Rattle.ob_command.specs.declared.command.RunProduct.{RunProduct};
ghost use Rattle.ob_command.specs.declared.command.OrderProduct.TheVariants.{Apart, Line, WholeRecord};

/// `check` and a name that is no option.
pub fn check_is_asked()
    ensures { (m : Text) → is_option m ≡ false → request (codes "check" ∷ m ∷ []) ≡ Check m }
{}

/// `list` and a name that is no option.
pub fn list_is_asked()
    ensures { (m : Text) → is_option m ≡ false → request (codes "list" ∷ m ∷ []) ≡ Listing m }
{}

/// `seq` and two names that are no options, and its options in any order.
pub fn seq_is_asked()
    ensures table { AsksWithScript (codes "seq") false seq_options }
    ensures calls { ScriptAsksFor (codes "seq") seq_options (Lacks []) (λ m s chosen. Seq (seq_with m s chosen)) }
{}

/// `live` and a name that is no option, and its options in any order.
pub fn live_is_asked()
    ensures table { AsksWithModule (codes "live") false live_options }
    ensures calls { ModuleAsksFor (codes "live") live_options (Lacks []) (λ m chosen. Live (calls_with m (codes "-") 16 chosen)) }
{}

/// `run` and three names that are no options, or two, and its options in any order.
pub fn run_is_asked()
    ensures table { AsksWithSchedule (codes "run") true run_options }
    ensures table_of_two { AsksWithScript (codes "run") true run_options }
    ensures code { RunAsksFor (codes "run") run_options (Lacks (codes "tree" ∷ codes "steps" ∷ codes "S" ∷ codes "LENGTH" ∷ codes "finish" ∷ [])) Run }
    ensures tree { RunAsksFor (codes "run") run_options
        (λ chosen. Has (codes "tree") chosen × Lacks (codes "steps" ∷ codes "FROM" ∷ codes "S" ∷ codes "LENGTH" ∷ codes "finish" ∷ []) chosen) RunTree }
    ensures steps { RunAsksFor (codes "run") run_options
        (λ chosen. Has (codes "steps") chosen × Lacks (codes "tree" ∷ codes "S" ∷ codes "LENGTH" ∷ codes "finish" ∷ []) chosen) RunSteps }
    ensures finish { (product : RunProduct) → RunAsksFor (codes "run") run_options
        (λ chosen. Has (codes "finish") chosen × Lacks (codes "S" ∷ codes "LENGTH" ∷ []) chosen × (product_in chosen ≡ Some product)) (RunFinished product) }
    ensures chance { (product : RunProduct) (k seed : ℕ) → ScriptAsksFor (codes "run") run_options
        (λ chosen. (count_in chosen ≡ Some k) × (seed_in chosen ≡ Some seed) × IsLength chosen × (product_in chosen ≡ Some product))
        (λ m s chosen. RunByChance product (chance_with m s k seed chosen)) }
    ensures tree_steps { RunAsksFor (codes "run") run_options (λ chosen. Has (codes "tree") chosen × Has (codes "steps") chosen) (λ run. Unclear) }
    ensures tree_from { RunAsksFor (codes "run") run_options (λ chosen. Has (codes "tree") chosen × Has (codes "FROM") chosen) (λ run. Unclear) }
{}

/// `serve` and two names that are no options, and its options in any order.
pub fn serve_is_asked()
    ensures table { AsksWithScript (codes "serve") true serve_options }
    ensures calls { (k : ℕ) → ScriptAsksFor (codes "serve") serve_options (λ chosen. count_in chosen ≡ Some k) (λ m s chosen. Serve (calls_with m s k chosen)) }
{}

/// `state` and three names that are no options, and its options in any order.
pub fn state_is_asked()
    ensures table { AsksWithSchedule (codes "state") true state_options }
    ensures runs { RunAsksFor (codes "state") state_options (Lacks []) State }
{}

/// `draw` and three names that are no options, or two, and its options in any order.
pub fn draw_is_asked()
    ensures table { AsksWithSchedule (codes "draw") false draw_options }
    ensures table_of_two { AsksWithScript (codes "draw") false draw_options }
    ensures run { (calls : Option CallNumbers) → RunAsksFor (codes "draw") draw_options
        (λ chosen. (range_by (value_in (codes "FROM-TO") chosen) ≡ Some calls) × Lacks (codes "K" ∷ []) chosen) (λ run. Draw run calls) }
    ensures record { (calls : Option CallNumbers) → ScriptAsksFor (codes "draw") draw_options
        (λ chosen. (range_by (value_in (codes "FROM-TO") chosen) ≡ Some calls) × Lacks (codes "N" ∷ codes "BUDGET" ∷ codes "FROM" ∷ codes "K" ∷ []) chosen)
        (λ m r chosen. DrawRecord m r calls) }
    ensures history { (calls : Option CallNumbers) → ScriptAsksFor (codes "draw") draw_options
        (λ chosen. (range_by (value_in (codes "FROM-TO") chosen) ≡ Some calls) × IsSeenBudget chosen × IsMost chosen × SaysSearch chosen
        × Lacks (codes "N" ∷ codes "FROM" ∷ []) chosen)
        (λ m h chosen. DrawHistory (seen_with m h chosen calls)) }
{}

/// `outcomes` and two names that are no options, and its options in any order; what is said of a number of configurations that is out of its
/// range, and of a procedure that is named beside `--whole`.
pub fn outcomes_is_asked()
    ensures table { AsksWithScript (codes "outcomes") true outcomes_options }
    ensures runs { (k : ℕ) → ScriptAsksFor (codes "outcomes") outcomes_options
        (λ chosen. (count_in chosen ≡ Some k) × IsMost chosen × (NamesBesideWhole chosen → ⊥)) (λ m s chosen. Outcomes (outcomes_with m s k chosen)) }
    ensures most { ScriptSays (codes "outcomes") outcomes_options (λ chosen. Has (codes "N") chosen × (IsMost chosen → ⊥)) most_mistake }
    ensures whole { ScriptSays (codes "outcomes") outcomes_options
        (λ chosen. Has (codes "N") chosen × IsMost chosen × NamesBesideWhole chosen) whole_mistake }
{}

/// `verify` and two names that are no options.
pub fn verify_is_asked()
    ensures { (m r : Text) → is_option m ≡ false → is_option r ≡ false → request (codes "verify" ∷ m ∷ r ∷ []) ≡ Verify m r }
{}

/// `order` and two names that are no options, and its options in any order; what is said of numbers that are out of their ranges, and of a
/// record of parts.
pub fn order_is_asked()
    ensures table { AsksWithHistory (codes "order") order_options }
    ensures line { ScriptAsksFor (codes "order") order_options (λ chosen. AreInRange chosen × Lacks (codes "record" ∷ codes "BY" ∷ []) chosen)
        (λ m h chosen. Order (order_with m h chosen Line)) }
    ensures record { ScriptAsksFor (codes "order") order_options (λ chosen. AreInRange chosen × Has (codes "record") chosen × Lacks (codes "BY" ∷ []) chosen)
        (λ m h chosen. Order (order_with m h chosen WholeRecord)) }
    ensures parts { (place : ℕ) → ScriptAsksFor (codes "order") order_options
        (λ chosen. AreInRange chosen × (argument_in chosen ≡ Some place) × Lacks (codes "record" ∷ []) chosen)
        (λ m h chosen. Order (order_with m h chosen (Apart place))) }
    ensures most { ScriptSays (codes "order") order_options (λ chosen. IsMost chosen → ⊥) most_mistake }
    ensures budget { ScriptSays (codes "order") order_options (λ chosen. IsMost chosen × (IsSeenBudget chosen → ⊥)) seen_budget_mistake }
    ensures place { ScriptSays (codes "order") order_options (λ chosen. IsMost chosen × IsSeenBudget chosen × (IsPlace chosen → ⊥)) place_mistake }
    ensures record_of_parts { ScriptSays (codes "order") order_options
        (λ chosen. AreInRange chosen × Has (codes "record") chosen × Has (codes "BY") chosen) parts_mistake }
{}

/// `explain` and up to three names that are no options, and its options in any order. Alone the name of a fault is no file's.
pub fn explain_is_asked()
    ensures table_of_one { AsksWithModule (codes "explain") false explain_options }
    ensures table_of_two { AsksWithScript (codes "explain") false explain_options }
    ensures table { AsksWithSchedule (codes "explain") false explain_options }
    ensures module { OtherAsksFor (codes "explain") explain_options
        (Lacks (codes "RECORD" ∷ codes "HISTORY" ∷ codes "NAME" ∷ codes "FROM" ∷ codes "N" ∷ codes "traps" ∷ []))
        (λ m chosen. Explain m (turns_in chosen)) }
    ensures budget { ModuleAsksFor (codes "explain") explain_options
        (λ chosen. Has (codes "BUDGET") chosen × Lacks (codes "RECORD" ∷ codes "HISTORY" ∷ codes "NAME" ∷ codes "FROM" ∷ codes "N" ∷ codes "traps" ∷ []) chosen)
        (λ m chosen. Explain m (turns_in chosen)) }
    ensures fault { (m : Text) → is_option m ≡ false → names_fault m ≡ true → request (codes "explain" ∷ m ∷ []) ≡ ExplainFault m }
    ensures record { (r : Text) → ModuleAsksFor (codes "explain") explain_options
        (λ chosen. (value_in (codes "RECORD") chosen ≡ Some r)
        × Lacks (codes "HISTORY" ∷ codes "FROM" ∷ codes "N" ∷ codes "BUDGET" ∷ codes "traps" ∷ codes "NAME" ∷ []) chosen)
        (λ m chosen. ExplainRecord m r) }
    ensures record_traps { (r : Text) → ModuleAsksFor (codes "explain") explain_options
        (λ chosen. (value_in (codes "RECORD") chosen ≡ Some r) × Has (codes "traps") chosen
        × Lacks (codes "HISTORY" ∷ codes "FROM" ∷ codes "N" ∷ codes "BUDGET" ∷ codes "NAME" ∷ []) chosen)
        (λ m chosen. ExplainRecordTraps m r) }
    ensures history { (h : Text) → ModuleAsksFor (codes "explain") explain_options
        (λ chosen. (value_in (codes "HISTORY") chosen ≡ Some h)
        × Lacks (codes "RECORD" ∷ codes "FROM" ∷ codes "N" ∷ codes "BUDGET" ∷ codes "traps" ∷ codes "NAME" ∷ []) chosen)
        (λ m chosen. ExplainHistory m h) }
    ensures calls { ScriptAsksFor (codes "explain") explain_options
        (Lacks (codes "RECORD" ∷ codes "HISTORY" ∷ codes "NAME" ∷ codes "N" ∷ codes "traps" ∷ [])) (λ m s chosen. ExplainCalls (calls_with m s 16 chosen)) }
    ensures traps { ScriptAsksFor (codes "explain") explain_options
        (λ chosen. Has (codes "traps") chosen × Lacks (codes "RECORD" ∷ codes "HISTORY" ∷ codes "NAME" ∷ codes "N" ∷ []) chosen)
        (λ m s chosen. ExplainTraps (calls_with m s 16 chosen)) }
    ensures always { (k : ℕ) (name : Text) → ScriptAsksFor (codes "explain") explain_options
        (λ chosen. (count_in chosen ≡ Some k) × (value_in (codes "NAME") chosen ≡ Some name)
        × Lacks (codes "RECORD" ∷ codes "HISTORY" ∷ codes "traps" ∷ []) chosen)
        (λ m s chosen. ExplainAlways (always_with m s name k chosen)) }
    ensures run { RunAsksFor (codes "explain") explain_options (Lacks (codes "RECORD" ∷ codes "HISTORY" ∷ codes "NAME" ∷ codes "traps" ∷ [])) ExplainRun }
{}

/// `bound` and a name that is no option, and its options in any order.
pub fn bound_is_asked()
    ensures table { AsksWithModule (codes "bound") true bound_options }
    ensures bound { (k : ℕ) → ModuleAsksFor (codes "bound") bound_options (λ chosen. count_in chosen ≡ Some k) (λ m chosen. Bound m k (turns_in chosen)) }
{}

/// The words that ask for the help of a command.
pub fn help_of_each_is_asked()
    ensures { All IsHelpAsked command_names }
{}

/// The words that ask for the version, alone and behind the name of a command.
pub fn version_is_asked()
    ensures word { request (codes "version" ∷ []) ≡ Version }
    ensures long { request (codes "--version" ∷ []) ≡ Version }
    ensures short { request (codes "-V" ∷ []) ≡ Version }
    ensures behind { All IsVersionAsked command_names }
{}

/// The words that ask for help.
pub fn help_is_asked()
    ensures alone { request (codes "help" ∷ []) ≡ Help }
    ensures long { request (codes "--help" ∷ []) ≡ Help }
    ensures short { request (codes "-h" ∷ []) ≡ Help }
    ensures of_help { request (codes "help" ∷ codes "help" ∷ []) ≡ Help }
    ensures of_version { request (codes "help" ∷ codes "version" ∷ []) ≡ Help }
{}

/// Words in which `clap` finds no fault ask for a command, or what is said of them is that they have no form of a command that has
/// several.
pub fn accepted_words_ask()
    ensures { (words : List Text) → fault_of obl0_app words ≡ [] → (asks_command words ≡ true) ⊎ (is_some (form_mistake_of words) ≡ true) }
{}

/// No words ask for nothing that there is.
pub fn nothing_is_asked()
    ensures { request [] ≡ Unclear }
{}
