//! The relations of a document.

ghost use Rattle.std.specs.Prelude.{◌≡◌};
ghost use Rattle.prov_export.specs.Document.{is_relation, relation_name, relation_of, source_name, target_name};

/// The relations between kinds of nodes. Paths, row versions and replies are entities; processes and
/// statements are activities.
#[derive(Clone, Copy)]
pub enum Relation {
    /// An activity used an entity.
    Used,
    /// An activity generated an entity.
    Generated,
    /// An entity was derived from an entity.
    Derived,
    /// An activity was informed by an activity.
    Informed,
}

/// The relation from an entity or an activity to an entity or an activity.
pub(crate) fn relation_of(source_is_entity: bool, target_is_entity: bool) -> Relation
    ensures { result ≡ relation_of source_is_entity target_is_entity }
{
    match source_is_entity {
        true => match target_is_entity {
            true => Relation::Derived,
            false => Relation::Used,
        },
        false => match target_is_entity {
            true => Relation::Generated,
            false => Relation::Informed,
        },
    }
}

/// Whether two relations are the same.
pub(crate) fn is_relation(a: Relation, b: Relation) -> bool
    ensures { result ≡ is_relation a b }
{
    match a {
        Relation::Used => match b {
            Relation::Used => true,
            Relation::Generated => false,
            Relation::Derived => false,
            Relation::Informed => false,
        },
        Relation::Generated => match b {
            Relation::Used => false,
            Relation::Generated => true,
            Relation::Derived => false,
            Relation::Informed => false,
        },
        Relation::Derived => match b {
            Relation::Used => false,
            Relation::Generated => false,
            Relation::Derived => true,
            Relation::Informed => false,
        },
        Relation::Informed => match b {
            Relation::Used => false,
            Relation::Generated => false,
            Relation::Derived => false,
            Relation::Informed => true,
        },
    }
}

/// The name of a relation's object in a document.
pub(crate) fn relation_name(relation: Relation) -> &'static str
    ensures { result.now ≡ relation_name relation }
{
    match relation {
        Relation::Used => "used",
        Relation::Generated => "wasGeneratedBy",
        Relation::Derived => "wasDerivedFrom",
        Relation::Informed => "wasInformedBy",
    }
}

/// The name under which an edge of a relation has its source.
pub(crate) fn source_name(relation: Relation) -> &'static str
    ensures { result.now ≡ source_name relation }
{
    match relation {
        Relation::Used => "prov:entity",
        Relation::Generated => "prov:activity",
        Relation::Derived => "prov:usedEntity",
        Relation::Informed => "prov:informant",
    }
}

/// The name under which an edge of a relation has its target.
pub(crate) fn target_name(relation: Relation) -> &'static str
    ensures { result.now ≡ target_name relation }
{
    match relation {
        Relation::Used => "prov:activity",
        Relation::Generated => "prov:entity",
        Relation::Derived => "prov:generatedEntity",
        Relation::Informed => "prov:informed",
    }
}
