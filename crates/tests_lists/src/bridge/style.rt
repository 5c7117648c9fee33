//! Tests of the names of both styles of list.
use acl_bridge::Style;

#[test]
fn styles_by_their_names(rt: HostRuntime) {
    for (name, wanted) in [
        ("posix", Some(Style::Posix)),
        ("nfs4", Some(Style::Nfs4)),
        ("NFS4", None),
    ] {
        assert!(rt; Style::read(name) == wanted, "{name}");
    }
}
