//! Laws of what a node drops, by the messages that bytes spell. Each is stated as a function without a body.

ghost use Rattle.std.specs.Prelude.{◌≡◌, List, ℕ, false, not, ◌&&◌, nat_lt};
ghost use Rattle.lk_types.specs.declared.command.Request.{Request};
ghost use Rattle.lk_messages.specs.declared.message.Content.TheVariants as content;
ghost use Rattle.lk_messages.specs.declared.message.Message.{Message};
ghost use Rattle.lk_messages.specs.declared.message.NodeMessage.{NodeMessage};
ghost use Rattle.lk_messages.specs.declared.message.NodeMessage.TheVariants.{Want};
ghost use Rattle.lk_messages.specs.Values.{WantValue};
ghost use Rattle.lk_messages.specs.Grammar.{Spells};
ghost use Rattle.lk_address_book.specs.declared.admins.Admins.{Admins};
ghost use Rattle.lk_address_book.specs.declared.admins.Admins.TheVariants.{Everyone};
ghost use Rattle.lk_address_book.specs.Outsiders.{is_outsiders_want};
ghost use Rattle.lk_address_book.specs.Admins.{bars, changes_cluster, is_admin};

/// Of clients' requests a node bars exactly those that change the cluster, of clients that are no admins; of nodes'
/// messages it bars none. If everyone is an admin, it bars nothing.
pub fn bars_requests_of_others()
    ensures request { (a : Admins) (m : Message) (r : Request) (bytes : List ℕ) → Spells m bytes
        → m.content ≡ content.Request r → bars a bytes ≡ (changes_cluster r.op && not (is_admin a r.client)) }
    ensures node { (a : Admins) (m : Message) (node : ℕ) (said : NodeMessage) (bytes : List ℕ) → Spells m bytes
        → m.content ≡ content.Node node said → bars a bytes ≡ false }
    ensures nothing { (bytes : List ℕ) → bars Everyone bytes ≡ false }
{}

/// Of what nodes and clients say exactly the Wants are an outsider's whose sender has a number above the greatest that
/// has joined.
pub fn drops_wants_of_outsiders()
    ensures want { (joined : ℕ) (m : Message) (node : ℕ) (w : WantValue) (bytes : List ℕ) → Spells m bytes
        → m.content ≡ content.Node node (Want w) → is_outsiders_want joined bytes ≡ nat_lt joined node }
    ensures others { (joined : ℕ) (m : Message) (node : ℕ) (said : NodeMessage) (bytes : List ℕ) → Spells m bytes
        → m.content ≡ content.Node node said → ((w : WantValue) → said ≡ Want w → ⊥)
        → is_outsiders_want joined bytes ≡ false }
    ensures request { (joined : ℕ) (m : Message) (r : Request) (bytes : List ℕ) → Spells m bytes
        → m.content ≡ content.Request r → is_outsiders_want joined bytes ≡ false }
{}
