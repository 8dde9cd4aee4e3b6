use ocr_finish::{Leaving, Scope};
use ocr_guid::Guid;

#[test]
fn a_scope_is_done_where_its_last_member_leaves(_rt: HostRuntime) {
    let mut scope = Scope::new(Guid(4), Guid(9));
    let (outer, event, members) = (scope.outer(), scope.event(), scope.members());
    prove!(outer == Guid(4) && event == Guid(9) && members == 1);
    scope.join();
    let joined = scope.members();
    prove!(joined == 2);
    let first = scope.leave();
    prove!(first == Leaving::Alive);
    let last = scope.leave();
    prove!(last == Leaving::Done);
}
