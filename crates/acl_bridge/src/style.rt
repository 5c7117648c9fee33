//! The two styles of access control list.
ghost use Rattle.std.specs.Prelude.{◌≡◌};
ghost use Rattle.acl_bridge.specs.Style.{style_of};

/// A style of access control list.
#[derive(Clone, Copy, Debug, PartialEq, Eq)]
pub enum Style {
    /// POSIX lists: one for access, and a directory may have a default one.
    Posix,
    /// One NFSv4 list.
    Nfs4,
}

impl Style {
    /// The style with this name, `posix` or `nfs4`; `None` for other names.
    pub fn read(name: &str) -> Option<Style>
        ensures { result ≡ style_of name.now }
    {
        match name {
            "posix" => Some(Style::Posix),
            "nfs4" => Some(Style::Nfs4),
            _ => None,
        }
    }
}
