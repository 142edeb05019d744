//! Laws of the definitions. Each is the contract of a function without parameters and code.

ghost use Rattle.std.specs.Prelude.{◌≡◌, ◌<◌, ℕ, List, Ok, Some, None, map, bytes_eq, slice_get};
ghost use Rattle.std.specs.List.{filter};
ghost use Rattle.std.specs.List.Sorted.{IsPermutation, IsStrictlySortedBy};
ghost use Rattle.check_objects.specs.Configuration.{Configuration, IsSetup, Service, number_by_name, name_of, pair_of, object_count, host_count};
ghost use Rattle.setup_model.specs.ParsedSetup.{ParsedSetup};
ghost use Rattle.setup_reader.specs.Verification.{verification};
ghost use Rattle.setup_model.specs.Keys.{key_of, is_same_key, names_of, first_repeat};
ghost use Rattle.check_objects.specs.Links.{named_parents, named_dependencies, all_named_dependencies};
ghost use Rattle.check_objects.specs.Numbering.{all_dependencies, configuration, hosts_in_order, services_in_order, smaller_count};
ghost use Rattle.setup_model.specs.Name.{text_order, pair_order};

/// Numbers follow the order of names.
///
/// The hosts in order are all hosts of the document (`hosts`). If no name occurs twice, their names ascend by
/// their bytes (`names_ascend`). The services in order are all services of the document (`services`). If no
/// two have both host and description in common, they ascend by the bytes of their hosts' names and then of
/// their descriptions (`pairs_ascend`). Ascending is strict: no two are equal. A document without a fault
/// meets both conditions (`apart`).
pub fn numbers_follow_names()
    ensures hosts { (d : ParsedSetup)
        → IsPermutation d.hosts (hosts_in_order d.hosts) }
    ensures names_ascend { (d : ParsedSetup) → first_repeat bytes_eq (names_of d.hosts) ≡ None
        → IsStrictlySortedBy text_order (names_of (hosts_in_order d.hosts)) }
    ensures services { (d : ParsedSetup)
        → IsPermutation d.services (services_in_order d.services) }
    ensures pairs_ascend { (d : ParsedSetup) → first_repeat is_same_key (map key_of d.services) ≡ None
        → IsStrictlySortedBy pair_order (map key_of (services_in_order d.services)) }
    ensures apart { (d : ParsedSetup) → verification d ≡ Ok tt
        → (first_repeat bytes_eq (names_of d.hosts) ≡ None)
        × (first_repeat is_same_key (map key_of d.services) ≡ None) }
{}

/// The number of an object is a count. In every setup the number of a host is the number of host names that
/// are smaller (`hosts`). The place of a service after the hosts is the number of pairs of a host's name and
/// a description that are smaller (`services`).
pub fn numbers_are_counts()
    ensures hosts { (c : Configuration) → (n : ℕ) → IsSetup c → n < host_count c
        → smaller_count text_order (map (λ h. h.name) c.hosts) (name_of c n) ≡ n }
    ensures services { (c : Configuration) → (n : ℕ) → (s : Service) → IsSetup c
        → slice_get c.services n ≡ Some s
        → smaller_count pair_order (map (pair_of c) c.services) (pair_of c s) ≡ n }
{}

/// In every setup the full name of an object leads back to the object. For the number n of an object,
/// `setup.number(setup.name(n))` is `Some(n)`, so no two objects have the same full name.
pub fn names_lead_back()
    ensures { (c : Configuration) → (n : ℕ) → IsSetup c → n < object_count c
        → number_by_name c (name_of c n) ≡ Some n }
{}

/// A setup has all links of a document without a fault, and no others.
///
/// Take names in place of numbers. The dependencies of an object are those of the document that name it, in
/// the same order (`dependencies`). The dependencies of all objects together are the document's (`together`).
/// The hosts with their parents are the document's too, and each host's parents are in the same order
/// (`parents`).
#[tactic(auto, using(crate::proofs::LinkLemmas::dependencies_by_name, crate::proofs::LinkLemmas::dependencies_together, crate::proofs::LinkLemmas::parents_together))]
pub fn links_are_kept()
    ensures dependencies { (d : ParsedSetup) → (n : ℕ) → verification d ≡ Ok tt
        → n < object_count (configuration d) → named_dependencies (configuration d) n
        ≡ filter (λ x. bytes_eq x.dependent (name_of (configuration d) n)) (all_dependencies d) }
    ensures together { (d : ParsedSetup) → verification d ≡ Ok tt
        → IsPermutation (all_dependencies d) (all_named_dependencies (configuration d)) }
    ensures parents { (d : ParsedSetup) → verification d ≡ Ok tt
        → IsPermutation (map (λ h. (h.name, h.parents)) d.hosts)
        (map (named_parents (configuration d)) (configuration d).hosts) }
{}
