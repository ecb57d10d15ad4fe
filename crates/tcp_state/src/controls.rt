//! What a segment's control says.
ghost use Rattle.std.specs.Prelude.{◌≡◌};
ghost use Rattle.tcp_state.specs.Controls.{is_syn, is_fin, is_rst};

use ip_wire::TcpControl;

/// Whether this is a SYN.
pub const fn is_syn(control: TcpControl) -> bool
    ensures { result ≡ is_syn control }
{
    matches!(control, TcpControl::Syn)
}

/// Whether this is a FIN.
pub const fn is_fin(control: TcpControl) -> bool
    ensures { result ≡ is_fin control }
{
    matches!(control, TcpControl::Fin)
}

/// Whether this is a reset.
pub const fn is_rst(control: TcpControl) -> bool
    ensures { result ≡ is_rst control }
{
    matches!(control, TcpControl::Rst)
}
