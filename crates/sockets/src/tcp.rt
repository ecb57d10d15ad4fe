//! TCP's sockets.
pub use tcp_socket::{
    CongestionControl, ConnectError, Due, EndReason, ListenError, NotInFastPath, OfferedSegment,
    RecvError, Reno, Reply, SendError, Socket, SocketBuffer, State,
};
