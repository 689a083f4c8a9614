//! Laws of JSON values as documents (RFC 6901, section 4).

ghost use Rattle.std.specs.Prelude.{◌≡◌, ℕ, ◌<◌, List, [], ◌∷◌, ◌++◌, length, Contains, slice_index_or, slice_set, Option, Some, None, option_map, option_and_then, if◌then◌else◌, Bool, Vec, String, string_bytes};
ghost use Rattle.std.specs.declared.alloc.Global.{Global};
ghost use Rattle.std.specs.BTreeMap.{BTreeMap, get_by_text, values, IsOrdered};
ghost use Rattle.std.specs.String.{string_cmp};
ghost use Rattle.std.specs.List.{remove};
ghost use Rattle.std.specs.Map.{update};
ghost use Rattle.std.specs.Str.{bytes_eq};
ghost use Rattle.serde_json.specs.Data.{Data, null, boolean, number, string};
ghost use Rattle.serde_json.specs.View.{view, number_view};
ghost use Rattle.serde_json.specs.declared.value.Value.{Value, Null, Bool as of_bool, Number as of_number, String as of_string, Array, Object};
ghost use Rattle.serde_json.specs.declared.number.Number.{Number};
ghost use Rattle.jsonptr_grammar.specs.Text.{Text};
ghost use Rattle.jsonptr_tree.specs.Node.{key, place, Path, an_object, an_array, a_leaf, of_json, sub, IsTree, IsListed};
ghost use Rattle.jsonptr_tree.specs.Following.{Finds};
ghost use Rattle.jsonptr_tree.specs.Put.{put};
ghost use Rattle.jsonptr_tree.specs.Expansion.{with_one};
ghost use Rattle.jsonptr_tree.specs.Assigning.{with_room};
ghost use Rattle.jsonptr_tree.specs.Removing.{without_step};
ghost use Rattle.jsonptr_tree.specs.Content.{Content, content_at, map_of};
ghost use Rattle.jsonptr_tree.specs.Json.{content, value_at, nodes, FindsValue, HasSortedKeys};

/// What a JSON document contains at which path (RFC 6901, section 4).
///
/// - The map of each value is a tree with finitely many nodes, and the map below a path is that of
///   the value there.
/// - A list of tokens finds at most one value, and the map that it finds is that of the value.
/// - The content of a value determines the value, and each part of it is the content of a value.
/// - An array has an element at each index below its length, an object has a member at each of its
///   keys, and every other value is a leaf.
pub fn json_law()
    ensures tree { (d : Data) → IsTree (nodes d) }
    ensures finite { (d : Data) → IsListed (nodes d) }
    ensures below { (w : Path) (d : Data) (e : Content)
        → value_at w d ≡ Some e
        → map_of e ≡ sub (nodes d) w }
    ensures path { (w v : Path) (d : Data)
        → value_at (w ++ v) d ≡ option_and_then (content_at v) (value_at w d) }
    ensures finds { (d : Data) (tokens : List Text) (e : Data)
        → FindsValue d tokens e
        → Finds (nodes d) tokens (nodes e) }
    ensures one_value { (d : Data) (tokens : List Text) (e f : Data)
        → FindsValue d tokens e
        → FindsValue d tokens f
        → e ≡ f }
    ensures content { (d e : Data) → content d ≡ content e → d ≡ e }
    ensures value { (w : Path) (d : Data) (c : Content)
        → value_at w d ≡ Some c
        → (e : Data) × (c ≡ content e) }
    ensures array { (v : Vec Value Global)
        → nodes (view (Array v)) [] ≡ Some (an_array (length v.items)) }
    ensures element { (v : Vec Value Global) (i : ℕ) (x : Value)
        → i < length v.items
        → value_at (place i ∷ []) (view (Array v))
        ≡ Some (content (view (slice_index_or v.items i x))) }
    ensures object { (m : BTreeMap (String Global) Value)
        → nodes (view (Object m)) [] ≡ Some an_object }
    ensures member { (m : BTreeMap (String Global) Value) (k : List ℕ)
        → value_at (key k ∷ []) (view (Object m))
        ≡ option_map (λ v. content (view v)) (get_by_text m k) }
    ensures null { nodes (view Null) [] ≡ Some (a_leaf (of_json null)) }
    ensures boolean { (b : Bool)
        → nodes (view (of_bool b)) [] ≡ Some (a_leaf (of_json (boolean b))) }
    ensures number { (x : Number)
        → nodes (view (of_number x)) [] ≡ Some (a_leaf (of_json (number (number_view x)))) }
    ensures string { (s : String Global)
        → nodes (view (of_string s)) [] ≡ Some (a_leaf (of_json (string (string_bytes s)))) }
{}

/// What writing one level of a JSON value does to its map.
///
/// Setting an element or a member puts it at its step. Pushing makes the array longer by one.
/// Removing a child is deleting it. An array of one element and an object of one member are what
/// one token expands to.
pub fn json_writing_law()
    ensures set { (v w : Vec Value Global) (i : ℕ) (x : Value)
        → i < length v.items
        → w.items ≡ slice_set v.items i x
        → nodes (view (Array w)) ≡ put (nodes (view (Array v))) (place i ∷ []) (nodes (view x)) }
    ensures push { (v w : Vec Value Global) (x : Value)
        → w.items ≡ v.items ++ x ∷ []
        → nodes (view (Array w))
        ≡ put (with_room (nodes (view (Array v))) (place (length v.items) ∷ []))
        (place (length v.items) ∷ []) (nodes (view x)) }
    ensures remove { (v w : Vec Value Global) (i : ℕ)
        → i < length v.items
        → w.items ≡ remove v.items i
        → nodes (view (Array w)) ≡ without_step (place i) (nodes (view (Array v))) }
    ensures one_element { (v : Vec Value Global) (x : Value)
        → v.items ≡ x ∷ []
        → nodes (view (Array v)) ≡ with_one (an_array 1) (place 0) (nodes (view x)) }
    ensures insert { (m n : BTreeMap (String Global) Value) (k : Text) (x : Value)
        → ((q : Text) → get_by_text n q ≡ update bytes_eq (get_by_text m) k (Some x) q)
        → nodes (view (Object n)) ≡ put (nodes (view (Object m))) (key k ∷ []) (nodes (view x)) }
    ensures remove_member { (m n : BTreeMap (String Global) Value) (k : Text)
        → ((q : Text) → get_by_text n q ≡ update bytes_eq (get_by_text m) k None q)
        → nodes (view (Object n)) ≡ without_step (key k) (nodes (view (Object m))) }
    ensures one_member { (n : BTreeMap (String Global) Value) (k : Text) (x : Value)
        → ((q : Text) → get_by_text n q ≡ (if bytes_eq k q then Some x else None))
        → nodes (view (Object n)) ≡ with_one an_object (key k) (nodes (view x)) }
{}

/// A JSON value with sorted keys is determined by its map: two of them with the same map are equal.
///
/// An array of such values is one of them. So is an object of such values whose `BTreeMap` is in
/// order.
pub fn json_map_law()
    ensures one_value { (d e : Data) → HasSortedKeys d → HasSortedKeys e → nodes d ≡ nodes e
        → d ≡ e }
    ensures array { (v : Vec Value Global)
        → ((x : Value) → Contains v.items x → HasSortedKeys (view x))
        → HasSortedKeys (view (Array v)) }
    ensures object { (m : BTreeMap (String Global) Value)
        → IsOrdered string_cmp m
        → ((x : Value) → Contains (values m) x → HasSortedKeys (view x))
        → HasSortedKeys (view (Object m)) }
{}
