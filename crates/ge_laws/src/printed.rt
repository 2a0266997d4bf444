//! Configured objects: what `qconf -s` prints is read again by `qconf -A` and `-M`.
ghost use Rattle.std.specs.Prelude.{◌≡◌, ℕ, Bool, false, List, Ok};
ghost use Rattle.ge_rows.specs.declared.cluster.Cluster.{Cluster};
ghost use Rattle.ge_rows.specs.declared.entries.Item.{Item};
ghost use Rattle.ge_rows.specs.declared.entries.Item.TheVariants as item;
ghost use Rattle.ge_rows.specs.declared.entries.ObjectKind.{ObjectKind};
ghost use Rattle.ge_rows.specs.declared.entries.ObjectKind.TheVariants as object;
ghost use Rattle.ge_rows.specs.declared.events.Event.{Event};
ghost use Rattle.ge_rows.specs.declared.settings.Sched.{Sched};
ghost use Rattle.ge_rows.specs.declared.values.ComplexDef.{ComplexDef};
ghost use Rattle.ge_rows.specs.declared.values.Value.{Value};
ghost use Rattle.ge_model_config.specs.Reading.{body_read};
ghost use Rattle.ge_laws.specs.PrintedObjects.{EndsPlainly, IsListed, IsNamed, IsReadAs, IsShownAgain, printed_text, reached};

/// Wherever events lead from the opening cluster, tables have names alone, and the default load formula is one.
pub fn tables_have_names()
    ensures { (events : List Event) (marks : List Bool) → IsNamed (reached events marks) }
{}

/// A group, user set, user, project or parallel environment that was read without a refusal is read again from its
/// printed lines, with or without a line feed behind the last, and without a refusal. So are the settings of the
/// scheduler, the table of complexes, which is given as a whole, and a host, but where a line feed follows a last value
/// that ends with a backslash. The cluster's tables have names alone. What the lines of a body are answered with, an object, is answered to its
/// printed lines too.
pub fn printed_objects_read_back()
    ensures answered { (c : Cluster) (kind : ObjectKind) → IsListed kind → IsNamed c
        → (adding : Bool) (text : List ℕ) (thing : Item)
        → body_read c kind adding text ≡ Ok thing → (ended : Bool)
        → body_read c kind adding (printed_text ended c thing) ≡ Ok thing }
    ensures listed { (c : Cluster) (kind : ObjectKind) → IsListed kind → IsNamed c
        → (adding : Bool) (text : List ℕ) (thing : Item) → IsReadAs c kind adding text thing
        → (ended : Bool) → IsReadAs c kind adding (printed_text ended c thing) thing }
    ensures settings { (c : Cluster) (adding : Bool) (text : List ℕ) (sched : Sched) → IsNamed c
        → IsReadAs c object.Sched adding text (item.Sched sched) → (ended : Bool)
        → IsReadAs c object.Sched adding (printed_text ended c (item.Sched sched))
        (item.Sched sched) }
    ensures complexes { (c : Cluster) (text : List ℕ) (table : List (List ℕ × ComplexDef))
        → IsReadAs c object.Complexes false text (item.Complexes table) → (ended : Bool)
        → IsReadAs c object.Complexes false (printed_text ended c (item.Complexes table))
        (item.Complexes table) }
    ensures hosts { (c : Cluster) (adding : Bool) (text name : List ℕ)
        (values : List (List ℕ × Value))
        → IsNamed c → IsReadAs c object.Host adding text (item.Host name values)
        → (ended : Bool) → EndsPlainly c values ended
        → IsReadAs c object.Host adding (printed_text ended c (item.Host name values))
        (item.Host name values) }
{}

/// Wherever events lead from the opening cluster, an object of these kinds that is put is shown by `qconf -s`, and what
/// is shown may be given to `qconf -M`: a manager is answered with done, and the cluster stays as it is.
pub fn shown_objects_are_taken_again()
    ensures listed { (events : List Event) (marks : List Bool) (moment : ℕ) (kind : ObjectKind)
        → IsListed kind → (adding : Bool) (text : List ℕ) (thing : Item)
        → IsReadAs (reached events marks) kind adding text thing
        → (ended : Bool) → IsShownAgain moment (reached events marks) kind thing ended }
    ensures settings { (events : List Event) (marks : List Bool) (moment : ℕ)
        → (adding : Bool) (text : List ℕ) (thing : Item)
        → IsReadAs (reached events marks) object.Sched adding text thing
        → (ended : Bool) → IsShownAgain moment (reached events marks) object.Sched thing ended }
    ensures complexes { (events : List Event) (marks : List Bool) (moment : ℕ)
        → (adding : Bool) (text : List ℕ) (thing : Item)
        → IsReadAs (reached events marks) object.Complexes adding text thing
        → (ended : Bool) → IsShownAgain moment (reached events marks) object.Complexes thing ended }
    ensures hosts { (events : List Event) (marks : List Bool) (moment : ℕ)
        → (adding : Bool) (text name : List ℕ) (values : List (List ℕ × Value))
        → IsReadAs (reached events marks) object.Host adding text (item.Host name values)
        → (ended : Bool) → EndsPlainly (reached events marks) values ended
        → IsShownAgain moment (reached events marks) object.Host (item.Host name values) ended }
{}
